// Outcomes are counted.
ghost use Rattle.std.specs.Prelude.{◌≡◌, length};
ghost use Rattle.model.specs.Tally.{empty_tally, counted, Sums};
ghost use Rattle.tally.specs.Counts.{numbers, tally_of};
ghost use Rattle.tally.specs.Trimmed.{tally_with};

use crate::{NUMBERS, Tally};

// Nothing is counted yet.
pub fn empty() -> Tally
    ensures { tally_of result ≡ empty_tally }
{
    Tally {
        counts: [0u64; NUMBERS],
        total: 0,
    }
}

// One outcome is counted where the counts lie, a place for each number, so that no line copies them; the next total. A full total stays, and its counts with it.
pub fn count_in(counts: &mut [u64], total: u64, number: u8) -> u64
    requires counts_len { length counts.old ≡ numbers }
    requires sums { Sums (tally_with counts.old total) }
    ensures { tally_with counts.new result ≡ counted (tally_with counts.old total) number }
{
    let count = counts[number as usize];
    if total == u64::MAX {
        return total;
    }
    counts[number as usize] = count + 1;
    total + 1
}

// The same of a tally by value.
pub fn count(t: Tally, number: u8) -> Tally
    ensures { tally_of result ≡ counted (tally_of t) number }
{
    let mut counts = t.counts;
    let total = count_in(&mut counts, t.total, number);
    Tally { counts, total }
}
