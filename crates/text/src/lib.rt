// The bytes of a line: its words, and the names, numbers and axis pairs that they spell.
#![tactic(auto)]

pub mod names;
pub mod numbers;
pub mod pairs;
pub mod values;
pub mod words;
