// Vectors for JAL and JALR: those of the public RISC-V test suite, rv32ui, and the ends of what the manual lets a jump reach.
use crate::suite::Suite;
use rv32ui::memory::CODE;
use rv32ui::runner::Runner;
use rv32ui::word::{jal_word, jalr_word};
use std::io;

// Register of the link, and offset. Names of fields would take a line each in the table.
#[derive(Clone, Copy)]
struct Jal(u32, i32);

// Register of the link, register of the base and what it holds, offset, and where the jump goes. Without names too.
#[derive(Clone, Copy)]
struct Jalr(u32, u32, u32, i32, u32);

// A program with its first value of x6, the instructions that it runs, and what a register holds then.
#[derive(Clone, Copy)]
struct Program {
    words: [u32; 8],
    x6: u32,
    instructions: usize,
    register: u32,
    expected: u32,
}

const JAL_ROWS: [Jal; 6] = [
    Jal(4, 16),
    Jal(0, 20),
    Jal(1, -4),
    Jal(1, 0),
    Jal(31, 0xf_fffc),
    Jal(1, -0x10_0000),
];

// The second names one register for link and base. The lowest bit of a sum is dropped, and sums wrap.
const JALR_ROWS: [Jalr; 9] = [
    Jalr(5, 6, 0x1_0010, 0, 0x1_0010),
    Jalr(5, 5, 0x1_0010, 0, 0x1_0010),
    Jalr(0, 6, 0x1_0018, -4, 0x1_0014),
    Jalr(1, 6, 0x1_0011, 0, 0x1_0010),
    Jalr(1, 6, 0x1_0010, 1, 0x1_0010),
    Jalr(1, 6, 0x1_000f, 2, 0x1_0010),
    Jalr(1, 6, 0xffff_fffc, 8, 4),
    Jalr(1, 6, 0x1_0000, -2048, 0xf800),
    Jalr(1, 0, 0, 2044, 2044),
];

// What stands after a jump is not executed.
const PROGRAMS: [Program; 2] = [
    Program {
        words: [
            0x0010_0093, // addi x1, x0, 1
            0x0140_006f, // jal x0, 20
            0x0010_8093, // addi x1, x1, 1
            0x0010_8093,
            0x0010_8093,
            0x0010_8093,
            0x0010_8093,
            0x0010_8093,
        ],
        x6: 0,
        instructions: 4,
        register: 1,
        expected: 3,
    },
    Program {
        words: [
            0x0010_0293, // addi x5, x0, 1
            0xffc3_0067, // jalr x0, -4(x6)
            0x0012_8293, // addi x5, x5, 1
            0x0012_8293,
            0x0012_8293,
            0x0012_8293,
            0x0012_8293,
            0x0012_8293,
        ],
        x6: CODE + 24,
        instructions: 5,
        register: 5,
        expected: 4,
    },
];

// The address after the jump, where a link can be seen.
fn link(register: u32) -> u32 {
    if register == 0 { 0 } else { CODE + 4 }
}

fn run_jal(suite: &mut Suite) -> io::Result<()> {
    for (row, Jal(target, offset)) in JAL_ROWS.into_iter().enumerate() {
        suite.machine.restart();
        let result = suite.machine.result_of(&[jal_word(target, offset)], target);
        suite.check("jal", row, result, link(target))?;
        let pc = suite.machine.pc();
        suite.check("jal", row, Some(pc), CODE.wrapping_add_signed(offset))?;
    }
    suite.count("jal", JAL_ROWS.len())
}

fn run_jalr(suite: &mut Suite) -> io::Result<()> {
    for (row, Jalr(target, base, value, offset, to)) in JALR_ROWS.into_iter().enumerate() {
        suite.machine.restart();
        suite.machine.set(base, value);
        let result = suite
            .machine
            .result_of(&[jalr_word(target, base, offset)], target);
        suite.check("jalr", row, result, link(target))?;
        let pc = suite.machine.pc();
        suite.check("jalr", row, Some(pc), to)?;
    }
    suite.count("jalr", JALR_ROWS.len())
}

pub fn run_jumps(suite: &mut Suite) -> io::Result<()> {
    run_jal(suite)?;
    run_jalr(suite)?;
    for (row, program) in PROGRAMS.iter().enumerate() {
        suite.machine.restart();
        suite.machine.set(6, program.x6);
        let result = suite
            .machine
            .run_for(&program.words, program.instructions)
            .map(|()| suite.machine.get(program.register));
        suite.check("after a jump", row, result, program.expected)?;
    }
    suite.count("after a jump", PROGRAMS.len())
}
