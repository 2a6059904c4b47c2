// Chains of predecessors over a memory's numbers laid flat: a whole memory is large, and a walk looks at little of it.
#![tactic(auto)]

pub mod held; // held.rt: an array and how many of it count
pub mod links; // links.rt: the links alone: rings, chains
pub mod used; // used.rt: the test for use
pub mod frames; // frames.rt: own offsets and turns too: the walk to the predecessor
