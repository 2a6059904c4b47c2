// A command line obeyed in a well-formed state.
#![tactic(auto)]

pub mod answer; // answer.rt: what a line gives: the step that is decided, and the next state with its number
mod lists; // lists.rt: the lines that reply
pub mod line; // line.rt: the line judged, read and decided; the decision carried out
