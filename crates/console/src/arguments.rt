// The words of the command line. They are asked by their place and not taken from an iterator, which would be no plainer: the
// first is looked at before it is known what it is, and the last only if it is an option.
ghost use Rattle.std.specs.Prelude.{◌≡◌, is_ok, IfOk, IfErr, IsOkUnless, length, string_bytes, Decides, nat_le, nat_lt, HoldsAt};
ghost use Rattle.console.specs.Line.{IsNoNumber, IsSurplus, IsUnheard, IsWordAt, NamesFile, is_option};

use crate::problem::Problem;
use std::env;

// The words after the program's name.
pub fn arguments(rt: &HostRuntime) -> Result<Vec<String>, Problem>
    ensures { IfErr result IsUnheard }
{
    let line = env::args(rt).map_err(Problem::CommandLine)?;
    line.skip(1).collect(rt.alloc()).map_err(Problem::NoMemory)
}

// The word at a place, which the usage calls by this name.
pub fn argument<'a>(line: &'a [String], at: usize, name: &'static str) -> Result<&'a str, Problem>
    ensures given { is_ok result ≡ nat_lt at (length line.now) }
    ensures word { IfOk result (λ text. HoldsAt (λ word. string_bytes word ≡ text.now) line.now at) }
    ensures missing { IsOkUnless result (Problem.MissingArgument name.entry) }
{
    let word = line.get(at).map(String::as_str);
    word.ok_or(Problem::MissingArgument(name))
}

// Whether a word is an option: it begins with a hyphen.
pub(crate) fn is_option(word: &str) -> bool
    ensures { result ≡ is_option word.now }
{
    word.as_bytes().starts_with(b"-")
}

// The file's name at a place, where no option stands; a file whose name begins with a hyphen is called ./-name.
pub fn file_name<'a>(line: &'a [String], at: usize, name: &'static str) -> Result<&'a str, Problem>
    ensures { NamesFile line.now at name.now result }
{
    let word = line.get(at).ok_or(Problem::MissingArgument(name))?;
    if is_option(word) {
        return Err(Problem::UnexpectedOption(word.clone().map_err(Problem::NoMemory)?));
    }
    Ok(word)
}

// Refuses the first word past so many. By a match, since the word is copied, and a copy may fail.
pub fn at_most(line: &[String], count: usize) -> Result<(), Problem>
    ensures verdict { is_ok result ≡ nat_le (length line.now) count }
    ensures surplus { IfErr result (IsSurplus line.now count) }
{
    match line.get(count) {
        Some(word) => Err(Problem::SurplusArgument(word.clone().map_err(Problem::NoMemory)?)),
        None => Ok(()),
    }
}

// Tells that a word is no number from 0 to the most.
pub fn not_number(rt: &HostRuntime, name: &'static str, most: u64, word: &str) -> Problem
    ensures { IsNoNumber name.now most word.now result }
{
    match String::from_str(rt.alloc(), word) {
        Ok(word) => Problem::NotNumber(name, most, word),
        Err(error) => Problem::NoMemory(error),
    }
}

// Whether the word at a place is this text.
pub fn is_word(line: &[String], at: usize, text: &str) -> bool
    ensures { Decides result (IsWordAt line.now at text.now) }
{
    line.get(at).is_some_and(|word| word.as_str() == text)
}
