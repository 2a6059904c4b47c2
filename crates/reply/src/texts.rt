// Types, groups and values as text.
ghost use Rattle.std.specs.Prelude.{◌≡◌, true, ◌+◌, ◌≤◌, length};
ghost use Rattle.model.specs.Kinds.{of_kind, of_group};
ghost use Rattle.model.specs.WellFormed.{turns_fine};
ghost use Rattle.model.specs.Reply.{six_values};
ghost use Rattle.print.specs.Over.{Wrote};
ghost use Rattle.pose.specs.Poses.{Within, reach};
ghost use Rattle.reply.specs.Values.{by_group, offsets_text, turns_text};

use model::{Group, Kind, Turns, Vec3};
use print::{put_degrees, put_text, put_value};

// A user system's type.
pub fn put_kind(out: &mut [u8], at: usize, k: Kind) -> usize
    requires { at + length (of_kind k).shown ≤ length out.old }
    ensures { Wrote (of_kind k).shown out.old at out.new result }
{
    match k {
        Kind::Ksd => put_text(out, at, b"KSD"),
        Kind::Kst => put_text(out, at, b"KST"),
        Kind::Ksw => put_text(out, at, b"KSW"),
        Kind::Ksb => put_text(out, at, b"KSB(USER)"),
        Kind::Kld => put_text(out, at, b"KLD(USER)"),
        Kind::Ksf => put_text(out, at, b"KSF"),
    }
}

// One of three texts, by the group.
pub fn put_by_group(out: &mut [u8], at: usize, g: Group, a: &[u8], b: &[u8], c: &[u8]) -> usize
    requires { at + length (by_group g a.now b.now c.now) ≤ length out.old }
    ensures { Wrote (by_group g a.now b.now c.now) out.old at out.new result }
{
    match g {
        Group::Operating => put_text(out, at, a),
        Group::Orientational => put_text(out, at, b),
        Group::Levelling => put_text(out, at, c),
    }
}

// The name of a group's fixed system.
pub fn put_fixed_name(out: &mut [u8], at: usize, g: Group) -> usize
    requires { at + length (of_group g).name ≤ length out.old }
    ensures { Wrote (of_group g).name out.old at out.new result }
{
    put_by_group(out, at, g, b"ZERO", b"PI_BASE", b"PI_LEVELLING")
}

// Where a group's chains end.
pub fn put_end(out: &mut [u8], at: usize, g: Group) -> usize
    requires { at + length (of_group g).end ≤ length out.old }
    ensures { Wrote (of_group g).end out.old at out.new result }
{
    put_by_group(out, at, g, b"ZERO", b"HEXAPOD", b"HEXAPOD")
}

// X= to Z=, each after a space. A label is written by a call of its own, so that it is a constant store in the machine code.
fn put_offsets(out: &mut [u8], at: usize, t: Vec3) -> usize
    requires { Within reach t × (at + length (offsets_text t) ≤ length out.old) }
    ensures { Wrote (offsets_text t) out.old at out.new result }
{
    let a = put_text(out, at, b" X=");
    let b = put_value(out, a, t.x);
    let c = put_text(out, b, b" Y=");
    let d = put_value(out, c, t.y);
    let e = put_text(out, d, b" Z=");
    put_value(out, e, t.z)
}

// U= to W=, each after a space.
fn put_turns(out: &mut [u8], at: usize, r: Turns) -> usize
    requires { (turns_fine r ≡ true) × (at + length (turns_text r) ≤ length out.old) }
    ensures { Wrote (turns_text r) out.old at out.new result }
{
    let a = put_text(out, at, b" U=");
    let b = put_degrees(out, a, r.u);
    let c = put_text(out, b, b" V=");
    let d = put_degrees(out, c, r.v);
    let e = put_text(out, d, b" W=");
    put_degrees(out, e, r.w)
}

// The six values, each after a space and its axis.
pub fn put_six_values(out: &mut [u8], at: usize, t: Vec3, r: Turns) -> usize
    requires { Within reach t × (turns_fine r ≡ true) × (at + length (six_values t r) ≤ length out.old) }
    ensures { Wrote (six_values t r) out.old at out.new result }
{
    let i = put_offsets(out, at, t);
    put_turns(out, i, r)
}
