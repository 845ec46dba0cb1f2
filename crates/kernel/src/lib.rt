// The kernel: slots by the plan, a switch after each, and messages over its channels.
#![tactic(auto)]

mod line;
pub mod machine;
mod messages;
pub mod report;
