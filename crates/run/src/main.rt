// run PLAN IMAGE SLOTS, run PLAN IMAGE --slots N: prints a line for each slot of a run, as it goes, or with --last that of the last.
#![tactic(auto)]

use console::arguments::{arguments, at_most, file_name, is_word};
use console::files::Files;
use console::problem::{Problem, Program};
use console::slots::Slots;
use hart::step::Core;
use hart::stepper::Stepper;
use kernel::report::Report;
use separation::session::Session;
use std::io::{BufWriter, Write};
use std::process::ExitCode;
use std::{io, iter};

const PROGRAM: Program = Program {
    name: "run",
    usage: "run PLAN IMAGE SLOTS [--last], or run PLAN IMAGE --slots N [--last]",
    about: "Runs the programs of a plan, slot by slot, and prints a line for each slot.
A plan or an image that breaks a rule is refused, with the rule's number and a place.

  PLAN, IMAGE  the files with the plan and the memory, in the formats of docs/MACHINE.md
  SLOTS        a file of four bytes, low byte first, with the number of slots
  --slots N    the number of slots itself
  --last       prints only the last slot's line",
};

fn main(rt: HostRuntime) -> ExitCode {
    PROGRAM.exit_code(&rt, run(&rt))
}

fn run(rt: &HostRuntime) -> Result<(), Problem> {
    let line = arguments(rt)?;
    if PROGRAM.introduces(rt, &line)? {
        return Ok(());
    }
    let plan = file_name(&line, 0, "PLAN")?;
    let image = file_name(&line, 1, "IMAGE")?;
    let slots = Slots::named(&line, 2)?;
    let options = 2 + slots.width();
    let last_only = is_word(&line, options, "--last");
    at_most(&line, options + usize::from(last_only))?;
    let count = slots.count(rt)?;
    let files = Files::read(rt, plan, image)?;
    let words = image::load(rt.alloc(), &files.image)?;
    if last_only {
        let whole = whole_run::run_with(&files.plan, words, &files.image, count)?;
        return Ok(print_last(rt, whole.finished.last)?);
    }
    let mut opened = admission::open_with(&files.plan, words, &files.image)?;
    let mut session = Session::start(opened.accepted);
    Ok(print_slots(rt, &mut session, &mut opened.words, count)?)
}

fn print_last(rt: &HostRuntime, last: Option<Report>) -> io::Result<()> {
    if let Some(report) = last {
        println!(rt; "{report}")?;
    }
    Ok(())
}

fn print_slots(
    rt: &HostRuntime,
    session: &mut Session,
    lent: &mut [u32],
    count: u32,
) -> io::Result<()> {
    let mut out = BufWriter::new(rt.alloc(), rt.stdout())?;
    let mut stepper = Stepper::new(Core::new(0, 0));
    let reports = iter::from_fn(|| session.run_slot(lent, &mut stepper));
    for report in reports.take(count as usize) {
        writeln!(out, "{report}")?;
    }
    out.flush()
}
