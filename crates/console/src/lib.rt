// What the programs share: the words of a command line, the number of slots, files within a bound, messages and the status.
#![tactic(auto)]

pub mod arguments;
pub mod files;
pub mod problem;
pub mod slots;
