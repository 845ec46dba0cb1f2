// Vectors of the public RISC-V test suite, rv32ui, for loads and stores. Its rows that differ from these only in the spacing of
// instructions are left out.
use crate::suite::Suite;
use rv32ui::runner::Runner;
use rv32ui::word::{load_word, store_word};
use std::io;

// Where the data of the vectors begin: the address, and the word in page 17.
const DATA: u32 = 0x1_1100;

const DATA_AT: u32 = 0x40;

// Expected result, base as a distance from the data, and offset. Names of fields would take a line each in the table.
#[derive(Clone, Copy)]
struct Load(u32, i32, i32);

// Expected result of the load that follows, value, base and offset as above, and the fixed bits of that load. Without names too.
#[derive(Clone, Copy)]
struct Store(u32, u32, i32, i32, u32);

const LB: u32 = 0x0000_0003;

const LH: u32 = 0x0000_1003;

const LW: u32 = 0x0000_2003;

const LBU: u32 = 0x0000_4003;

const LHU: u32 = 0x0000_5003;

const SB: u32 = 0x0000_0023;

const SH: u32 = 0x0000_1023;

const SW: u32 = 0x0000_2023;

// the bytes ff, 00, f0, 0f
const BYTES: [u32; 1] = [0x0ff0_00ff];

// the halves 00ff, ff00, 0ff0, f00f
const HALVES: [u32; 2] = [0xff00_00ff, 0xf00f_0ff0];

const WORDS: [u32; 4] = [0x00ff_00ff, 0xff00_ff00, 0x0ff0_0ff0, 0xf00f_f00f];

const LB_ROWS: [Load; 10] = [
    Load(0xffff_ffff, 0, 0),
    Load(0x0000_0000, 0, 1),
    Load(0xffff_fff0, 0, 2),
    Load(0x0000_000f, 0, 3),
    Load(0xffff_ffff, 3, -3),
    Load(0x0000_0000, 3, -2),
    Load(0xffff_fff0, 3, -1),
    Load(0x0000_000f, 3, 0),
    Load(0xffff_ffff, -32, 32),
    Load(0x0000_0000, -6, 7),
];

const LBU_ROWS: [Load; 10] = [
    Load(0x0000_00ff, 0, 0),
    Load(0x0000_0000, 0, 1),
    Load(0x0000_00f0, 0, 2),
    Load(0x0000_000f, 0, 3),
    Load(0x0000_00ff, 3, -3),
    Load(0x0000_0000, 3, -2),
    Load(0x0000_00f0, 3, -1),
    Load(0x0000_000f, 3, 0),
    Load(0x0000_00ff, -32, 32),
    Load(0x0000_0000, -6, 7),
];

const LH_ROWS: [Load; 10] = [
    Load(0x0000_00ff, 0, 0),
    Load(0xffff_ff00, 0, 2),
    Load(0x0000_0ff0, 0, 4),
    Load(0xffff_f00f, 0, 6),
    Load(0x0000_00ff, 6, -6),
    Load(0xffff_ff00, 6, -4),
    Load(0x0000_0ff0, 6, -2),
    Load(0xffff_f00f, 6, 0),
    Load(0x0000_00ff, -32, 32),
    Load(0xffff_ff00, -5, 7),
];

const LHU_ROWS: [Load; 10] = [
    Load(0x0000_00ff, 0, 0),
    Load(0x0000_ff00, 0, 2),
    Load(0x0000_0ff0, 0, 4),
    Load(0x0000_f00f, 0, 6),
    Load(0x0000_00ff, 6, -6),
    Load(0x0000_ff00, 6, -4),
    Load(0x0000_0ff0, 6, -2),
    Load(0x0000_f00f, 6, 0),
    Load(0x0000_00ff, -32, 32),
    Load(0x0000_ff00, -5, 7),
];

const LW_ROWS: [Load; 10] = [
    Load(0x00ff_00ff, 0, 0),
    Load(0xff00_ff00, 0, 4),
    Load(0x0ff0_0ff0, 0, 8),
    Load(0xf00f_f00f, 0, 12),
    Load(0x00ff_00ff, 12, -12),
    Load(0xff00_ff00, 12, -8),
    Load(0x0ff0_0ff0, 12, -4),
    Load(0xf00f_f00f, 12, 0),
    Load(0x00ff_00ff, -32, 32),
    Load(0xff00_ff00, -3, 7),
];

const SB_ROWS: [Store; 22] = [
    Store(0xffff_ffaa, 0xffff_ffaa, 0, 0, LB),
    Store(0x0000_0000, 0x0000_0000, 0, 1, LB),
    Store(0xffff_efa0, 0xffff_efa0, 0, 2, LH),
    Store(0x0000_000a, 0x0000_000a, 0, 3, LB),
    Store(0xffff_ffaa, 0xffff_ffaa, 7, -3, LB),
    Store(0x0000_0000, 0x0000_0000, 7, -2, LB),
    Store(0xffff_ffa0, 0xffff_ffa0, 7, -1, LB),
    Store(0x0000_000a, 0x0000_000a, 7, 0, LB),
    Store(0x0000_0078, 0x1234_5678, -24, 32, LB),
    Store(0xffff_ff98, 0x0000_3098, 2, 7, LB),
    Store(0xffff_ffdd, 0xffff_ffdd, 0, 0, LB),
    Store(0xffff_ffcd, 0xffff_ffcd, 0, 1, LB),
    Store(0xffff_ffcc, 0xffff_ffcc, 0, 2, LB),
    Store(0xffff_ffbc, 0xffff_ffbc, 0, 3, LB),
    Store(0xffff_ffbb, 0xffff_ffbb, 0, 4, LB),
    Store(0xffff_ffab, 0xffff_ffab, 0, 5, LB),
    Store(0x0000_0033, 0x0000_0033, 0, 0, LB),
    Store(0x0000_0023, 0x0000_0023, 0, 1, LB),
    Store(0x0000_0022, 0x0000_0022, 0, 2, LB),
    Store(0x0000_0012, 0x0000_0012, 0, 3, LB),
    Store(0x0000_0011, 0x0000_0011, 0, 4, LB),
    Store(0x0000_0001, 0x0000_0001, 0, 5, LB),
];

const SH_ROWS: [Store; 22] = [
    Store(0x0000_00aa, 0x0000_00aa, 0, 0, LH),
    Store(0xffff_aa00, 0xffff_aa00, 0, 2, LH),
    Store(0xbeef_0aa0, 0xbeef_0aa0, 0, 4, LW),
    Store(0xffff_a00a, 0xffff_a00a, 0, 6, LH),
    Store(0x0000_00aa, 0x0000_00aa, 14, -6, LH),
    Store(0xffff_aa00, 0xffff_aa00, 14, -4, LH),
    Store(0x0000_0aa0, 0x0000_0aa0, 14, -2, LH),
    Store(0xffff_a00a, 0xffff_a00a, 14, 0, LH),
    Store(0x0000_5678, 0x1234_5678, -16, 32, LH),
    Store(0x0000_3098, 0x0000_3098, 11, 7, LH),
    Store(0xffff_ccdd, 0xffff_ccdd, 0, 0, LH),
    Store(0xffff_bccd, 0xffff_bccd, 0, 2, LH),
    Store(0xffff_bbcc, 0xffff_bbcc, 0, 4, LH),
    Store(0xffff_abbc, 0xffff_abbc, 0, 6, LH),
    Store(0xffff_aabb, 0xffff_aabb, 0, 8, LH),
    Store(0xffff_daab, 0xffff_daab, 0, 10, LH),
    Store(0x0000_2233, 0x0000_2233, 0, 0, LH),
    Store(0x0000_1223, 0x0000_1223, 0, 2, LH),
    Store(0x0000_1122, 0x0000_1122, 0, 4, LH),
    Store(0x0000_0112, 0x0000_0112, 0, 6, LH),
    Store(0x0000_0011, 0x0000_0011, 0, 8, LH),
    Store(0x0000_3001, 0x0000_3001, 0, 10, LH),
];

const SW_ROWS: [Store; 22] = [
    Store(0x00aa_00aa, 0x00aa_00aa, 0, 0, LW),
    Store(0xaa00_aa00, 0xaa00_aa00, 0, 4, LW),
    Store(0x0aa0_0aa0, 0x0aa0_0aa0, 0, 8, LW),
    Store(0xa00a_a00a, 0xa00a_a00a, 0, 12, LW),
    Store(0x00aa_00aa, 0x00aa_00aa, 28, -12, LW),
    Store(0xaa00_aa00, 0xaa00_aa00, 28, -8, LW),
    Store(0x0aa0_0aa0, 0x0aa0_0aa0, 28, -4, LW),
    Store(0xa00a_a00a, 0xa00a_a00a, 28, 0, LW),
    Store(0x1234_5678, 0x1234_5678, 0, 32, LW),
    Store(0x5821_3098, 0x5821_3098, 29, 7, LW),
    Store(0xaabb_ccdd, 0xaabb_ccdd, 0, 0, LW),
    Store(0xdaab_bccd, 0xdaab_bccd, 0, 4, LW),
    Store(0xddaa_bbcc, 0xddaa_bbcc, 0, 8, LW),
    Store(0xcdda_abbc, 0xcdda_abbc, 0, 12, LW),
    Store(0xccdd_aabb, 0xccdd_aabb, 0, 16, LW),
    Store(0xbccd_daab, 0xbccd_daab, 0, 20, LW),
    Store(0x0011_2233, 0x0011_2233, 0, 0, LW),
    Store(0x3001_1223, 0x3001_1223, 0, 4, LW),
    Store(0x3300_1122, 0x3300_1122, 0, 8, LW),
    Store(0x2330_0112, 0x2330_0112, 0, 12, LW),
    Store(0x2233_0011, 0x2233_0011, 0, 16, LW),
    Store(0x1223_3001, 0x1223_3001, 0, 20, LW),
];

// Runs the loads of one width from their data.
fn run_loads(
    suite: &mut Suite,
    (name, fixed): (&str, u32),
    data: &[u32],
    rows: &[Load],
) -> io::Result<()> {
    for (row, Load(expected, base, offset)) in rows.iter().copied().enumerate() {
        suite.machine.restart();
        suite.machine.put_data(DATA_AT, data);
        suite.machine.set(2, DATA.wrapping_add_signed(base));
        let result = suite
            .machine
            .result_of(&[load_word(fixed, 14, 2, offset)], 14);
        suite.check(name, row, result, expected)?;
    }
    suite.count(name, rows.len())
}

// Runs the stores of one width over words that all hold the same, and a load after each.
fn run_stores(
    suite: &mut Suite,
    (name, fixed): (&str, u32),
    filling: u32,
    rows: &[Store],
) -> io::Result<()> {
    for (row, Store(expected, value, base, offset, load)) in rows.iter().copied().enumerate() {
        suite.machine.restart();
        suite.machine.put_data(DATA_AT, &[filling; 10]);
        suite.machine.set(1, value);
        suite.machine.set(2, DATA.wrapping_add_signed(base));
        let words = [
            store_word(fixed, 2, 1, offset),
            load_word(load, 14, 2, offset),
        ];
        let result = suite.machine.result_of(&words, 14);
        suite.check(name, row, result, expected)?;
    }
    suite.count(name, rows.len())
}

pub fn run_accesses(suite: &mut Suite) -> io::Result<()> {
    run_loads(suite, ("lb", LB), &BYTES, &LB_ROWS)?;
    run_loads(suite, ("lbu", LBU), &BYTES, &LBU_ROWS)?;
    run_loads(suite, ("lh", LH), &HALVES, &LH_ROWS)?;
    run_loads(suite, ("lhu", LHU), &HALVES, &LHU_ROWS)?;
    run_loads(suite, ("lw", LW), &WORDS, &LW_ROWS)?;
    run_stores(suite, ("sb", SB), 0xefef_efef, &SB_ROWS)?;
    run_stores(suite, ("sh", SH), 0xbeef_beef, &SH_ROWS)?;
    run_stores(suite, ("sw", SW), 0xdead_beef, &SW_ROWS)
}
