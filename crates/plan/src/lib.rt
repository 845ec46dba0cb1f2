// The plan: its bytes, the rules that it has to keep by itself, and the clock at which each slot begins.
#![tactic(auto)]

pub mod ends;
pub mod flows;
pub mod format;
pub mod laws;
pub mod model;
pub mod refusal;
pub mod rules;
pub mod switch;
pub mod timetable;
