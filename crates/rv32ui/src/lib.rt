// The vectors of the public RISC-V test suite (rv32ui) that compute or branch, as tables, and what runs them on a core.
#![tactic(auto)]

pub mod laws;
pub mod memory;
pub mod operation;
pub mod row;
mod rows;
pub mod runner;
pub mod tally;
pub mod word;
