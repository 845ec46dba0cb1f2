// Why a program ends without doing its job, and the one line that says so.
ghost use Rattle.std.specs.Prelude.{◌≡◌, IfOk, is_ok, if◌then◌else◌};
ghost use Rattle.std.specs.Process.{exit_status};
ghost use Rattle.console.specs.Line.{AsksOfItself, is_of_usage};

use crate::arguments::is_word;
use plan::refusal::Refusal;
use std::alloc::AllocError;
use std::io;
use std::process::ExitCode;
use thiserror::Error;

pub const VERSION: &str = "0.1.0";

// What every program takes, for the end of its list of arguments.
const OPTIONS: &str = "
  --help       prints this
  --version    prints the version";

// The name of a program, how it is called, and what is told of it and its arguments.
#[derive(Clone, Copy)]
pub struct Program {
    pub name: &'static str,
    pub usage: &'static str,
    pub about: &'static str,
}

// Words of the command line are shown quoted and escaped, so that a line break in one makes no second line.
#[derive(Debug, Drop, Error)]
pub enum Problem {
    // the plan or the image breaks a rule
    #[error(transparent)]
    Refused(#[from] Refusal),
    #[error("missing argument {0}")]
    MissingArgument(&'static str),
    #[error("surplus argument {0:?}")]
    SurplusArgument(String),
    #[error("unexpected option {0:?}")]
    UnexpectedOption(String),
    #[error("{0} takes a whole number from 0 to {1}, not {2:?}")]
    NotNumber(&'static str, u64, String),
    #[error("cannot read {0:?}: {1}")]
    Unreadable(String, io::Error),
    // the file with the number of slots has other than four bytes
    #[error("{0:?}: a number of slots takes exactly 4 bytes")]
    SlotsLength(String),
    #[error("out of memory")]
    NoMemory(#[from(alloc)] AllocError),
    #[error("cannot read the command line: {0}")]
    CommandLine(io::Error),
    #[error("cannot write to the standard output: {0}")]
    Output(#[from] io::Error),
    // the program did its job and found a fault: `conformance`, where a vector fails
    #[error("{0}")]
    Failed(&'static str),
}

impl Problem {
    fn is_of_usage(&self) -> bool
        ensures { result ≡ is_of_usage self.now }
    {
        matches!(
            self,
            Problem::MissingArgument(_)
                | Problem::SurplusArgument(_)
                | Problem::UnexpectedOption(_)
                | Problem::NotNumber(..)
        )
    }
}

impl Program {
    // Says how the program is called and what it does, or its version, if the first word asks for it; and whether it does.
    pub fn introduces(self, rt: &HostRuntime, line: &[String]) -> io::Result<bool>
        ensures { IfOk result (AsksOfItself line.now) }
    {
        if is_word(line, 0, "--help") {
            println!(rt; "usage: {}\n\n{}{OPTIONS}", self.usage, self.about)?;
            return Ok(true);
        }
        if is_word(line, 0, "--version") {
            println!(rt; "{} {VERSION}", self.name)?;
            return Ok(true);
        }
        Ok(false)
    }

    // One line on the standard error. A reader that went away is told nothing.
    fn complain(self, rt: &HostRuntime, problem: &Problem) {
        let name = self.name;
        let usage = self.usage;
        let _ = match problem {
            Problem::Output(error) if error.kind() == io::ErrorKind::BrokenPipe => Ok(()),
            other if other.is_of_usage() => eprintln!(rt; "{name}: {other} (usage: {usage})"),
            other => eprintln!(rt; "{name}: {other}"),
        };
    }

    // Says what went wrong, if anything did, and gives the status that the process ends with.
    pub fn exit_code(self, rt: &HostRuntime, outcome: Result<(), Problem>) -> ExitCode
        ensures { exit_status result ≡ (if is_ok outcome then 0 else 1) }
    {
        let Err(problem) = outcome else {
            return ExitCode::SUCCESS;
        };
        if let Some(problem) = left_to_say(rt, problem) {
            self.complain(rt, &problem);
        }
        ExitCode::FAILURE
    }
}

// Writes a refusal to the standard output, alone. What is then left to say: any other problem, and that it could not be written.
fn left_to_say(rt: &HostRuntime, problem: Problem) -> Option<Problem> {
    match problem {
        Problem::Refused(refusal) => println!(rt; "{refusal}").err().map(Problem::Output),
        other => Some(other),
    }
}
