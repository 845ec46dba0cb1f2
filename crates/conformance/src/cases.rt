// Worked cases: what instructions cost, and how programs stop. The figures follow from the table of costs in docs/MACHINE.md.
use crate::suite::Suite;
use rv32ui::memory::CODE;
use rv32ui::runner::Runner;
use std::io;

// Words from the start of the code on, the cycles of each instruction in the order of their execution, and what a register holds then.
#[derive(Clone, Copy)]
struct Timed {
    words: [u32; 6],
    cycles: [u32; 6],
    register: u32,
    expected: u32,
}

// A word, what x1 holds, where the program is, the number of the cause, and the cycles. Names of fields would take a line each in the table.
#[derive(Clone, Copy)]
struct Stop(u32, u32, u32, u32, u32);

const LUI_2: u32 = 0x0001_1137; // lui x2, 17

const LUI_3: u32 = 0x0001_21b7; // lui x3, 18

const LUI_4: u32 = 0x0001_3237; // lui x4, 19

const NOP: u32 = 0x0000_0013;

// rdcycle x5; lw x6, 0(x2); lw x7, 0(x2); rdcycle x8: the second load is of the same line
const TWO_LOADS: [u32; 6] = [
    LUI_2,
    0xc000_22f3,
    0x0001_2303,
    0x0001_2383,
    0xc000_2473,
    NOP,
];

const TIMED: [Timed; 6] = [
    Timed {
        words: TWO_LOADS,
        cycles: [31, 1, 51, 1, 1, 1],
        register: 8,
        expected: 84,
    },
    Timed {
        words: TWO_LOADS,
        cycles: [31, 1, 51, 1, 1, 1],
        register: 5,
        expected: 31,
    },
    // lw x7, 64(x2), which is of the next line
    Timed {
        words: [
            LUI_2,
            0xc000_22f3,
            0x0001_2303,
            0x0401_2383,
            0xc000_2473,
            NOP,
        ],
        cycles: [31, 1, 51, 21, 1, 1],
        register: 8,
        expected: 104,
    },
    // sw x2, 0(x2); lw x6, 0(x3); lw x7, 4(x3); rdcycle x8: the first load drives a dirty line out
    Timed {
        words: [
            LUI_2,
            0x0021_2023,
            LUI_3,
            0x0001_a303,
            0x0041_a383,
            0xc000_2473,
        ],
        cycles: [31, 51, 1, 61, 1, 1],
        register: 8,
        expected: 145,
    },
    // sw x0, 0(x2); jalr x0, 20(x4), to page 19; lw x6, 0(x3): code page, data page and line are missing, over a dirty line
    Timed {
        words: [LUI_2, LUI_3, LUI_4, 0x0001_2023, 0x0142_0067, 0x0001_a303],
        cycles: [31, 1, 1, 51, 1, 91],
        register: 6,
        expected: 0,
    },
    // jalr x0, 8(x4), to page 19; beq x0, x0, -8: the code page is missing and the branch mispredicted, and the next time neither
    Timed {
        words: [LUI_4, 0x0082_0067, 0xfe00_0ce3, NOP, NOP, NOP],
        cycles: [31, 1, 34, 1, 1, 1],
        register: 4,
        expected: 0x1_3000,
    },
];

const STOPS: [Stop; 14] = [
    Stop(0x0000_0073, 0, CODE, 1, 31), // ecall
    Stop(0x0000_0000, 0, CODE, 1, 31),
    Stop(0x0020_026f, 0, CODE, 2, 31), // jal x4, 2
    Stop(0x0000_8267, 0x1_0002, CODE, 2, 31), // jalr x4, 0(x1)
    Stop(0x0000_0163, 0, CODE, 2, 31), // beq x0, x0, 2
    Stop(NOP, 0, 0x1_4000, 3, 31), // no page 20
    Stop(NOP, 0, 0x1_1000, 3, 31), // page 17 has no X
    Stop(0x0000_a103, 0x1_1002, CODE, 4, 31), // lw x2, 0(x1)
    Stop(0x0000_9103, 0x1_1001, CODE, 4, 31), // lh x2, 0(x1)
    Stop(0x0000_a103, 0x1_4000, CODE, 5, 61), // lw x2, 0(x1)
    Stop(0x0020_a023, 0x1_1002, CODE, 6, 31), // sw x2, 0(x1)
    Stop(0x0020_9023, 0x1_1001, CODE, 6, 31), // sh x2, 0(x1)
    Stop(0x0020_a023, 0x1_4000, CODE, 7, 61), // sw x2, 0(x1)
    Stop(0x0020_a023, 0x1_0100, CODE, 7, 31), // sw x2, 0(x1): page 16 is known, and has no W
];

fn run_timed(suite: &mut Suite) -> io::Result<()> {
    for (row, case) in TIMED.iter().enumerate() {
        suite.machine.restart();
        suite.machine.put_code(&case.words);
        for cycles in case.cycles {
            let cost = suite.machine.step();
            suite.check("cycles", row, Some(cost), cycles)?;
        }
        let value = suite.machine.get(case.register);
        suite.check("cycles", row, Some(value), case.expected)?;
    }
    suite.count("cycles", TIMED.len())
}

// A stop leaves the counter and the registers as they are, and each step after it takes one cycle.
fn run_stops(suite: &mut Suite) -> io::Result<()> {
    for (row, Stop(word, base, pc, cause, cycles)) in STOPS.into_iter().enumerate() {
        suite.machine.restart();
        suite.machine.put_code(&[word]);
        suite.machine.set(1, base);
        suite.machine.go_to(pc);
        let first = suite.machine.step();
        let second = suite.machine.step();
        let told = suite.machine.cause();
        let there = suite.machine.pc();
        let written = suite.machine.get(2) | suite.machine.get(4);
        suite.check("stops", row, told, cause)?;
        suite.check("stops", row, Some(first), cycles)?;
        suite.check("stops", row, Some(second), 1)?;
        suite.check("stops", row, Some(there), pc)?;
        suite.check("stops", row, Some(written), 0)?;
    }
    suite.count("stops", STOPS.len())
}

pub fn run_cases(suite: &mut Suite) -> io::Result<()> {
    run_timed(suite)?;
    run_stops(suite)
}
