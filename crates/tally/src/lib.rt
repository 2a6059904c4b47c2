// A day's tally: how many lines were accepted, how many were refused under each number, and how many there were.
#![tactic(auto)]

ghost use Rattle.model.specs.Tally.{Sums};
ghost use Rattle.tally.specs.Trimmed.{tally_with};

pub mod counting; // counting.rt: outcomes, one after the other
pub mod text; // text.rt: the tally printed

// A number is a byte.
pub const NUMBERS: usize = 256;

// How many outcomes had each number, 0 the accepted ones; and how many there were in all.
#[derive(Clone, Copy)]
pub struct Tally {
    pub counts: [u64; NUMBERS],
    pub total: u64,
    pub ghost sums: { Sums (tally_with counts total) },
}
