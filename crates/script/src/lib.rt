// A script of directives drives every public call of the machine.
#![tactic(auto)]

mod answer; // answer.rt: the answer to a line, as text
mod cut; // cut.rt: what is held of a line that does not end
mod drive; // drive.rt: standard input and output
mod feed; // feed.rt: a block's lines, obeyed one after the other
mod fields; // fields.rt: the words of a line
mod hex; // hex.rt: bytes as pairs of digits
mod numbers; // numbers.rt: decimal whole numbers
mod obey; // obey.rt: one line, carried out and answered
mod parse; // parse.rt: what a line orders
mod rooms; // rooms.rt: the buffers that are lent for lines

pub use drive::run;
