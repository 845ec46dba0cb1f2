// Runs the vectors of the public RISC-V test suite (rv32ui) and worked cases on a hart with a small memory, and counts them.
#![tactic(auto)]

mod accesses;
mod cases;
mod jumps;
mod machine;
mod suite;

use accesses::run_accesses;
use cases::run_cases;
use console::arguments::{arguments, at_most};
use console::problem::{Problem, Program};
use jumps::run_jumps;
use rv32ui::operation::{OPERATIONS, Operation};
use rv32ui::runner::outcome;
use std::io;
use std::process::ExitCode;
use suite::Suite;

const PROGRAM: Program = Program {
    name: "conformance",
    usage: "conformance",
    about: "Runs the vectors of the public RISC-V test suite (rv32ui) and worked cases on the core, and prints how many there are of each.
",
};

// Runs the rows of an operation.
fn run_rows(suite: &mut Suite, operation: &Operation) -> io::Result<()> {
    let name = operation.name;
    for (at, row) in operation.rows.iter().enumerate() {
        let given = outcome(&mut suite.machine, operation, *row);
        suite.check(name, at, given, row.1)?;
    }
    suite.count(name, operation.rows.len())
}

fn main(rt: HostRuntime) -> ExitCode {
    PROGRAM.exit_code(&rt, run(&rt))
}

fn run(rt: &HostRuntime) -> Result<(), Problem> {
    let line = arguments(rt)?;
    if PROGRAM.introduces(rt, &line)? {
        return Ok(());
    }
    at_most(&line, 0)?;
    let mut suite = Suite::new(rt);
    for operation in &OPERATIONS {
        run_rows(&mut suite, operation)?;
    }
    run_accesses(&mut suite)?;
    run_jumps(&mut suite)?;
    run_cases(&mut suite)?;
    if suite.close()? {
        Ok(())
    } else {
        Err(Problem::Failed("vectors failed"))
    }
}
