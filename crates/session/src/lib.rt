// A session of ksrun or ksbench: input comes in blocks, lines are cut out of it and counted, and their answers go into a lent buffer.
#![tactic(auto)]

pub mod cut; // cut.rt: what is held of a line that does not end
pub mod due; // due.rt: what is due behind an answer
pub mod run; // run.rt: the lines of a block, answered one after the other
pub mod feed; // feed.rt: a block fed to the machine
