// Translation of virtual addresses by the two-level page tables of Sv32: the walk that decides which frame an access reaches.
#![tactic(auto)]

pub mod access;
pub mod entry;
pub mod laws;
pub mod leaf;
pub mod physical;
pub mod walk;
