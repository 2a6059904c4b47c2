// ksbench: lines on standard input, answers on standard output, and the permanent memory in a file.
#![tactic(auto)]

pub mod start; // start.rt: from the file's bytes, or without a file
mod edge; // edge.rt: what goes out: answers, images, reasons
pub mod serve; // serve.rt: a block, and the end of the input
pub mod run; // run.rt: the program
