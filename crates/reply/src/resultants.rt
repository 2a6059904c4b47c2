// KLT?: resultants, by the walk along the links of a memory laid flat once.
ghost use Rattle.std.specs.Prelude.{◌∷◌, [], ◌+◌, ◌≤◌, length};
ghost use Rattle.model.specs.Limits.{buffer_limit};
ghost use Rattle.model.specs.Stored.{bytes_of, systems_of, memory_of, FineMemory};
ghost use Rattle.model.specs.Request.{resultants};
ghost use Rattle.model.specs.Reply.{listing, resultant_line, listed};
ghost use Rattle.print.specs.Over.{Wrote};
ghost use Rattle.chains.specs.Walk.{walk_of};
ghost use Rattle.reply.specs.Lines.{Replied};
ghost use Rattle.reply.specs.Reached.{Reachable, reached_text, ref_at};

use crate::line::put_resultant;
use crate::texts::put_by_group;
use crate::{put_fixed, slot};
use chains::frames::{Reached, frames_of, reach, unmoved};
use chains::links::links_of;
use facts::kinds::group_of;
use facts::limits::MAX_SYSTEMS;
use model::{Group, Memory, Name};
use pose::rotation::shown_of;
use print::{put_byte, put_text};

// The lines of the fixed systems.
const OF_ZERO: &[u8] =
    b"Name=ZERO EndCoordinateSystem=ZERO X=0.000000 Y=0.000000 Z=0.000000 U=0.000000 V=0.000000 W=0.000000 Steps=0";

const OF_BASE: &[u8] =
    b"Name=PI_BASE EndCoordinateSystem=HEXAPOD X=0.000000 Y=0.000000 Z=0.000000 U=0.000000 V=0.000000 W=0.000000 Steps=0";

const OF_LEVELLING: &[u8] =
    b"Name=PI_LEVELLING EndCoordinateSystem=HEXAPOD X=0.000000 Y=0.000000 Z=0.000000 U=0.000000 V=0.000000 W=0.000000 Steps=0";

// The line of a user system and what its walk reached.
fn put_reached(out: &mut [u8], at: usize, name: Name, g: Group, r: Reached) -> usize
    requires { Reachable name r × (at + length (reached_text (bytes_of name) g (walk_of r)) ≤ length out.old) }
    ensures { Wrote (reached_text (bytes_of name) g (walk_of r)) out.old at out.new result }
{
    let shown = shown_of(r.rot);
    put_resultant(out, at, name, g, r.at, shown, r.steps)
}

// Where the walk from system i can stop: at its predecessor, if that one comes first in the list and so has been reached; else at the fixed system.
fn reached_before(pred: usize, i: usize) -> usize
    ensures { result ≤ i }
{
    if pred <= i { pred } else { 0 }
}

// What is reached from each place is kept for the walks of those that follow on from it. Place 0 is the fixed systems'.
pub fn resultants(m: Memory, reply: &mut [u8]) -> usize
    requires fine_memory { FineMemory m }
    requires room { buffer_limit ≤ length reply.old }
    ensures { Replied (listed (memory_of m) resultants) reply.old reply.new result }
{
    let links = links_of(m);
    let frames = frames_of(m);
    let start = unmoved();
    let mut known = [start; MAX_SYSTEMS + 1];
    let mut at = put_fixed(reply, OF_ZERO, OF_BASE, OF_LEVELLING);
    // Lent once: a part lent anew for every walk costs a wait at each.
    let ps = links.flat();
    let xs: &[i64] = &frames.offsets;
    let ts: &[u8] = &frames.turns;
    for (i, s) in m.systems[..m.count as usize].iter().enumerate() {
        let stop = reached_before(ps[i] as usize, i);
        let r = reach(xs, ts, ps, stop, known[stop], i + 1, MAX_SYSTEMS);
        known[i + 1] = r;
        let part = &mut reply[at..];
        let a = put_text(part, 0, b" \n");
        at += put_reached(part, a, s.name, group_of(s.kind), r);
    }
    put_byte(reply, at, b'\n')
}

// KLT? of one system: a group's fixed one (place 0), or the user system at the place. Out of line: what is put into the line's decision is paid by every line.
#[inline(never)]
pub fn resultant_at(m: Memory, g: Group, place: u8, reply: &mut [u8]) -> usize
    requires fine_memory { FineMemory m }
    requires room { buffer_limit ≤ length reply.old }
    requires there { place ≤ m.count }
    ensures { Replied (listing (resultant_line (systems_of m) (ref_at (systems_of m) g place) ∷ [])) reply.old reply.new result }
{
    if place == 0 {
        let at = put_by_group(reply, 0, g, OF_ZERO, OF_BASE, OF_LEVELLING);
        return put_byte(reply, at, b'\n');
    }
    let links = links_of(m);
    let frames = frames_of(m);
    let s = m.systems[slot(place)];
    let r = reach(
        &frames.offsets,
        &frames.turns,
        links.flat(),
        0,
        unmoved(),
        place as usize,
        MAX_SYSTEMS,
    );
    let at = put_reached(reply, 0, s.name, group_of(s.kind), r);
    put_byte(reply, at, b'\n')
}
