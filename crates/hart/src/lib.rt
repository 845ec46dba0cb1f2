// One instruction with its cost: what a partition's program does to its registers, its counter and its words.
#![tactic(auto)]

pub mod cause;
pub mod context;
pub mod laws;
mod memory;
pub mod step;
pub mod stepper;
