// speed N: runs a loop for N instructions, one step after the other, and prints what it took in cycles. `time` tells how long that is.
#![tactic(auto)]

use console::arguments::{argument, arguments, at_most, not_number};
use console::problem::{Problem, Program};
use hart::step::Core;
use hart::stepper::Stepper;
use rv32ui::memory::{CODE, CODE_FRAME, MEMORY_WORDS, lay_out, put};
use std::process::ExitCode;

const PROGRAM: Program = Program {
    name: "speed",
    usage: "speed N",
    about: "Runs a loop of N instructions on one core and prints the cycles that it took there; `time` tells how long it takes here.

  N            how many instructions",
};

// Goes around page 17 and adds to its words.
const LOOP: [u32; 9] = [
    0x0001_1137, // lui x2, 17
    0x7fc2_f313, // andi x6, x5, 2044
    0x0061_03b3, // add x7, x2, x6
    0x0003_a403, // lw x8, 0(x7)
    0x0054_0433, // add x8, x8, x5
    0x0083_a023, // sw x8, 0(x7)
    0x0042_8293, // addi x5, x5, 4
    0xfe02_94e3, // bne x5, x0, -24
    0xfe5f_f06f, // jal x0, -28
];

// The clock after so many instructions.
fn run(words: &mut [u32], count: u64) -> u64 {
    let mut stepper = Stepper::new(Core::new(0, CODE));
    for _ in 0..count {
        stepper.step(words);
    }
    stepper.core.clock
}

fn main(rt: HostRuntime) -> ExitCode {
    PROGRAM.exit_code(&rt, measure(&rt))
}

fn measure(rt: &HostRuntime) -> Result<(), Problem> {
    let line = arguments(rt)?;
    if PROGRAM.introduces(rt, &line)? {
        return Ok(());
    }
    let word = argument(&line, 0, "N")?;
    at_most(&line, 1)?;
    let count = word
        .parse::<u64>()
        .map_err(|_| not_number(rt, "N", u64::MAX, word))?;
    let mut memory = vec![in rt.alloc(); 0u32; MEMORY_WORDS]?;
    lay_out(&mut memory);
    put(&mut memory, CODE_FRAME, 0, &LOOP);
    let cycles = run(&mut memory, count);
    println!(rt; "{count} instructions, {cycles} cycles")?;
    Ok(())
}
