// The sheet of all triples of quarter turns, as they are typed and as they are shown. There is no table here: triples and what they are shown as come from
// `pose`, and numbers are written by `print`, as they are for `ksrun`.

#![tactic(auto)]

ghost use Rattle.std.specs.Prelude.{◌≡◌, ◌+◌, ◌≤◌, length};
ghost use Rattle.model.specs.Sheet.{whole_degrees, sheet_line, sheet, angles};
ghost use Rattle.print.specs.Over.{Wrote};

use facts::limits::{MILLION, QUARTER_TURN};
use model::Turns;
use pose::rotation::{named, shown_of, triple_at};
use print::{put_byte, put_decimal};
use std::io::Print;

// Triples of 0 to 3 quarter turns.
const TRIPLES: u8 = 64;

// Quarter turns, in whole degrees.
fn put_whole_degrees(out: &mut [u8], at: usize, quarters: u8) -> usize
    requires { at + length (whole_degrees quarters) ≤ length out.old }
    ensures { Wrote (whole_degrees quarters) out.old at out.new result }
{
    put_decimal(out, at, u64::from(quarters) * QUARTER_TURN / MILLION)
}

// The angles of a triple, one space between.
fn put_angles(out: &mut [u8], at: usize, t: Turns) -> usize
    requires { at + length (angles t) ≤ length out.old }
    ensures { Wrote (angles t) out.old at out.new result }
{
    let u = put_whole_degrees(out, at, t.u);
    let i = put_byte(out, u, b' ');
    let v = put_whole_degrees(out, i, t.v);
    let j = put_byte(out, v, b' ');
    put_whole_degrees(out, j, t.w)
}

// The typed angles, the shown ones, and LF.
fn put_line(out: &mut [u8], at: usize, t: Turns) -> usize
    requires { at + length (sheet_line t) ≤ length out.old }
    ensures { Wrote (sheet_line t) out.old at out.new result }
{
    let shown = shown_of(named(t));
    let typed_end = put_angles(out, at, t);
    let i = put_byte(out, typed_end, b' ');
    let shown_end = put_angles(out, i, shown);
    put_byte(out, shown_end, b'\n')
}

// The whole sheet, from the start of the buffer; its length.
pub fn put_sheet(out: &mut [u8]) -> usize
    requires { length sheet ≤ length out.old }
    ensures { Wrote sheet out.old 0 out.new result }
{
    let mut at = 0;
    for k in 0..TRIPLES {
        at = put_line(out, at, triple_at(k));
    }
    at
}

// What is handed to standard output is the sheet.
fn write_sheet(rt: HostRuntime, text: &[u8]) -> std::io::Result<()>
    requires { text.now ≡ sheet }
{
    Print::write_all(&rt.stdout(), text)
}

pub fn run(rt: HostRuntime) {
    let mut out = io::buffer();
    let n = put_sheet(&mut out);
    if write_sheet(rt, &out[..n]).is_err() {
        let _ = Print::write_all(
            &rt.stderr(),
            b"kssheet: standard output cannot be written\n",
        );
    }
}
