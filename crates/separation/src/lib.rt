// The face of the kernel: the calls that the programs make, with every promise in their contracts.
#![tactic(auto)]

pub mod promises;
pub mod run;
pub mod session;
