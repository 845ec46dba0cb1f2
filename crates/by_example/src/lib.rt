// The tests: what functions that other crates can call do, by example.
#![tactic(auto)]

#[cfg(test)]
mod drafts;
#[cfg(test)]
mod encodings;
#[cfg(test)]
mod fields;
#[cfg(test)]
mod images;
#[cfg(test)]
mod layout;
#[cfg(test)]
mod lookups;
#[cfg(test)]
mod plans;
#[cfg(test)]
mod runs;
#[cfg(test)]
mod slots;
#[cfg(test)]
mod steps;
#[cfg(test)]
mod verdicts;
#[cfg(test)]
mod walks;
