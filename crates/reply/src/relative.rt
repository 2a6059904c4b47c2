// KLT? A B: one system seen from another of its group, by one walk for each of the two.
ghost use Rattle.std.specs.Prelude.{◌≡◌, ◌∷◌, [], ◌≤◌, length};
ghost use Rattle.model.specs.Limits.{buffer_limit};
ghost use Rattle.model.specs.Use.{in_group};
ghost use Rattle.model.specs.Stored.{systems_of, FineMemory};
ghost use Rattle.model.specs.Reply.{listing, relative_line};
ghost use Rattle.print.specs.Over.{Wrote};
ghost use Rattle.chains.specs.Walk.{walk_of};
ghost use Rattle.reply.specs.Lines.{Replied};
ghost use Rattle.reply.specs.Reached.{seen_walk, Seeable, relative_text};

use crate::line::{put_pose, put_system_name};
use crate::slot;
use chains::frames::{Reached, frames_of, reach, undone, unmoved};
use chains::links::links_of;
use facts::limits::MAX_SYSTEMS;
use model::{Group, Memory, Name};
use pose::rotation::shown_of;
use print::{put_byte, put_text};

// The line of the system at one place of the group, as it is seen from the one at another.
fn put_relative(
    out: &mut [u8],
    g: Group,
    place: u8,
    name: Name,
    from: u8,
    end: Name,
    r: Reached,
) -> usize
    requires { Seeable place name from end r × (length (relative_text g place name from end (walk_of r)) ≤ length out.old) }
    ensures { Wrote (relative_text g place name from end (walk_of r)) out.old 0 out.new result }
{
    let shown = shown_of(r.rot);
    let a = put_text(out, 0, b"Name=");
    let b = put_system_name(out, a, g, place, name);
    let c = put_text(out, b, b" EndCoordinateSystem=");
    let d = put_system_name(out, c, g, from, end);
    put_pose(out, d, r.at, shown, r.steps)
}

// The walk from the second place, undone, and the walk from the first that goes on from there: the first, seen from the second.
fn seen_at(m: Memory, place: u8, from: u8) -> Reached
    requires fine_memory { FineMemory m }
    requires there { (place ≤ m.count) × (from ≤ m.count) }
    ensures { walk_of result ≡ seen_walk (systems_of m) place from }
{
    let links = links_of(m);
    let frames = frames_of(m);
    let ps = links.flat();
    let xs: &[i64] = &frames.offsets;
    let ts: &[u8] = &frames.turns;
    let start = unmoved();
    let there = reach(xs, ts, ps, 0, start, from as usize, MAX_SYSTEMS);
    let back = undone(there);
    reach(xs, ts, ps, 0, back, place as usize, MAX_SYSTEMS)
}

// Of two places of one group, the line of the first seen from the second. Place 0 is the group's fixed system. Out of line: what is put into the line's decision is paid by every
// line.
#[inline(never)]
pub fn relative_at(m: Memory, g: Group, place: u8, from: u8, reply: &mut [u8]) -> usize
    requires fine_memory { FineMemory m }
    requires room { buffer_limit ≤ length reply.old }
    requires there { (place ≤ m.count) × (from ≤ m.count) }
    ensures { Replied (listing (relative_line (systems_of m) (in_group g place) (in_group g from) ∷ [])) reply.old reply.new result }
{
    let r = seen_at(m, place, from);
    let s = m.systems[slot(place)];
    let t = m.systems[slot(from)];
    let at = put_relative(reply, g, place, s.name, from, t.name, r);
    put_byte(reply, at, b'\n')
}
