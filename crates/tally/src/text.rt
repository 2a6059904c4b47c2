// A tally printed, line by line.
ghost use Rattle.std.specs.Prelude.{◌+◌, ◌≤◌, length, drop};
ghost use Rattle.model.specs.Tally.{tally_line, refused_line, refused_lines, tally_text};
ghost use Rattle.print.specs.Over.{Wrote};
ghost use Rattle.tally.specs.Counts.{longest_tally, tally_of};

use crate::Tally;
use print::{put_byte, put_decimal, put_text};

// A label, two numbers, LF.
fn put_line(out: &mut [u8], at: usize, label: &[u8], first: u64, second: u64) -> usize
    requires { at + length (tally_line label.now first second) ≤ length out.old }
    ensures { Wrote (tally_line label.now first second) out.old at out.new result }
{
    let a = put_text(out, at, label);
    let b = put_decimal(out, a, first);
    let c = put_byte(out, b, b' ');
    let d = put_decimal(out, c, second);
    put_byte(out, d, b'\n')
}

// R, the number and its count, if it occurred.
fn put_refused(out: &mut [u8], at: usize, number: u64, count: u64) -> usize
    requires { at + length (refused_line number count) ≤ length out.old }
    ensures { Wrote (refused_line number count) out.old at out.new result }
{
    if count == 0 {
        return at;
    }
    put_line(out, at, b"R ", number, count)
}

// The same for every number, ascending.
fn put_all_refused(out: &mut [u8], at: usize, t: Tally) -> usize
    requires { at + length (refused_lines 1 (drop 1 t.counts)) ≤ length out.old }
    ensures { Wrote (refused_lines 1 (drop 1 t.counts)) out.old at out.new result }
{
    let mut end = at;
    for (before, count) in t.counts[1..].iter().enumerate() {
        end = put_refused(out, end, before as u64 + 1, *count);
    }
    end
}

// T, the accepted and the total; then the refused.
pub fn put_tally(out: &mut [u8], at: usize, t: Tally) -> usize
    requires { at + longest_tally ≤ length out.old }
    ensures wrote { Wrote (tally_text (tally_of t)) out.old at out.new result }
    ensures upper_bound { result ≤ at + longest_tally }
{
    let end = put_line(out, at, b"T ", t.counts[0], t.total);
    put_all_refused(out, end, t)
}
