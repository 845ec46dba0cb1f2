// check PLAN IMAGE: prints 'accepted', or the refusal of the first rule that the plan or its image breaks.
#![tactic(auto)]

use console::arguments::{arguments, at_most, file_name};
use console::files::Files;
use console::problem::{Problem, Program};
use std::process::ExitCode;

const PROGRAM: Program = Program {
    name: "check",
    usage: "check PLAN IMAGE",
    about: "Tells whether a plan with its memory keeps every rule: prints 'accepted', or the first rule that is broken, by its number, and a place.

  PLAN, IMAGE  the files with the plan and the memory, in the formats of docs/MACHINE.md",
};

fn main(rt: HostRuntime) -> ExitCode {
    PROGRAM.exit_code(&rt, check(&rt))
}

fn check(rt: &HostRuntime) -> Result<(), Problem> {
    let line = arguments(rt)?;
    if PROGRAM.introduces(rt, &line)? {
        return Ok(());
    }
    let plan = file_name(&line, 0, "PLAN")?;
    let image = file_name(&line, 1, "IMAGE")?;
    at_most(&line, 2)?;
    let files = Files::read(rt, plan, image)?;
    let words = image::load(rt.alloc(), &files.image)?;
    admission::open_with(&files.plan, words, &files.image)?;
    Ok(println!(rt; "accepted")?)
}
