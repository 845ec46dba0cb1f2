// What everything stands on: numbers in bytes, bit fields of a word, and frames as parts of the lent words.
#![tactic(auto)]

pub mod bits;
pub mod bytes;
pub mod frames;
pub mod laws;
