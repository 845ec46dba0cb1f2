// For how many slots a program is asked to run: a file says it, or the word after --slots.
ghost use Rattle.std.specs.Prelude.{◌≡◌, IfErr, length, Some, None, nat_eq, if◌then◌else◌};
ghost use Rattle.words.specs.Bytes.{number};
ghost use Rattle.console.specs.Slots.{Counts, IsNamed, width};
ghost use Rattle.console.specs.Line.{IsNoCount};

use crate::arguments::{argument, file_name, is_word, not_number};
use crate::files::read_up_to;
use crate::problem::Problem;
use words::bytes::u32_at;

#[derive(Clone, Copy)]
pub enum Slots<'a> {
    // a file of four bytes, low byte first
    File(&'a str),
    // the decimal number after --slots
    Number(&'a str),
}

impl<'a> Slots<'a> {
    // The one that the words name from this place on.
    pub fn named(line: &'a [String], at: usize) -> Result<Slots<'a>, Problem>
        ensures { IsNamed line.now at result }
    {
        if is_word(line, at, "--slots") {
            return Ok(Slots::Number(argument(line, at + 1, "N")?));
        }
        Ok(Slots::File(file_name(line, at, "SLOTS")?))
    }

    // So many words name it.
    pub fn width(self) -> usize
        ensures { result ≡ width self.entry }
    {
        match self {
            Slots::File(_) => 1,
            Slots::Number(_) => 2,
        }
    }

    // The number of slots.
    pub fn count(self, rt: &HostRuntime) -> Result<u32, Problem>
        ensures { Counts self.entry result }
    {
        match self {
            Slots::File(path) => in_file(rt, path),
            Slots::Number(text) => text
                .parse::<u32>()
                .map_err(|_| not_number(rt, "--slots", u64::from(u32::MAX), text)),
        }
    }
}

fn in_file(rt: &HostRuntime, path: &str) -> Result<u32, Problem>
    ensures { IfErr result (IsNoCount path.now) }
{
    // a byte more than it may have, so that a longer file shows
    let bytes = read_up_to(rt, path, 5)?;
    four_bytes(&bytes).ok_or_else(|| other_length(rt, path))
}

fn other_length(rt: &HostRuntime, path: &str) -> Problem
    ensures { IsNoCount path.now result }
{
    match String::from_str(rt.alloc(), path) {
        Ok(path) => Problem::SlotsLength(path),
        Err(error) => Problem::NoMemory(error),
    }
}

fn four_bytes(bytes: &[u8]) -> Option<u32>
    ensures { result ≡ (if nat_eq (length bytes.now) 4 then Some (number bytes.now 0 4) else None) }
{
    (bytes.len() == 4).then(|| u32_at(bytes, 0))
}
