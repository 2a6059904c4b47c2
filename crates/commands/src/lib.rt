// The changes that command lines ask for: the memory is looked at once, the ladder of refusals judges, and what is to be done is decided.
#![tactic(auto)]

pub mod numbers; // numbers.rt: the ladder: which conditions hold, and the refusal of the first that does
pub mod subject; // subject.rt: what is asked of two names and of the links, from one look at the memory
pub mod conditions; // conditions.rt: the conditions of the numbers, over what was seen
pub mod judge; // judge.rt: why each change of the systems is refused
pub mod stage; // stage.rt: where the stage is
pub mod changed; // changed.rt: what is decided of a change, and the state once it is done
pub mod systems; // systems.rt: what is decided of define, locate, link, copy, remove, enable
pub mod whole; // whole.rt: what is decided of the level, and of whole memories
