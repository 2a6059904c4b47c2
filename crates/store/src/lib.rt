// The file in which the bench keeps its saved image. Of what the system does nothing can be proved: that the calls are safe and end is, and what is said of
// texts and buffers. All other work is in functions on slices.
#![tactic(auto)]

pub mod hold; // hold.rt: one program at a time on one file
pub mod load; // load.rt: the file, read whole
mod mark; // mark.rt: what a lock file holds, and the names of descriptors
pub mod place; // place.rt: names beside a path, its folder, and the file that a link leads to
mod reach; // reach.rt: the calls that take a path
pub mod save; // save.rt: the file, written anew
pub mod say; // say.rt: complaints
