// The memories of the machine: finding a system by its name, the test for well-formedness, and the edits.
#![tactic(auto)]

pub mod distinct;
pub mod edit;
pub mod enable;
pub mod factory;
pub mod find;
pub mod fine;
pub mod kinds;
pub mod names;
pub mod stage; // what is asked of the platform's position
pub mod used;
