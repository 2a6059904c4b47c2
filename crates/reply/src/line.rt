// The lines of the lists. Where there is a place, 0 is the fixed system of the group g, whose text is constant, and s is not looked at; any other place is
// the user system s, and then g is not.
ghost use Rattle.std.specs.Prelude.{◌≡◌, true, ◌+◌, ◌≤◌, ◌<◌, length};
ghost use Rattle.model.specs.Limits.{name_limit};
ghost use Rattle.model.specs.Kinds.{of_group};
ghost use Rattle.model.specs.WellFormed.{turns_fine};
ghost use Rattle.model.specs.Stored.{bytes_of, system_of};
ghost use Rattle.pose.specs.Poses.{Within, reach};
ghost use Rattle.print.specs.Over.{Wrote};
ghost use Rattle.reply.specs.Lines.{Writable, system_text, name_text, pred_text, link_text, enabled_text, pose_text, resultant_text};

use crate::texts::{put_by_group, put_end, put_fixed_name, put_kind, put_six_values};
use facts::kinds::group_of;
use model::{Group, Name, System, Turns, Vec3};
use print::{put_decimal, put_name, put_text};

// ---- names

// The name of the fixed system of the group (place 0), or this one, of a user system.
pub fn put_system_name(out: &mut [u8], at: usize, g: Group, place: u8, name: Name) -> usize
    requires { (0 < place → name.len ≤ name_limit) × (at + length (name_text g place (bytes_of name)) ≤ length out.old) }
    ensures { Wrote (name_text g place (bytes_of name)) out.old at out.new result }
{
    if place == 0 {
        return put_fixed_name(out, at, g);
    }
    put_name(out, at, name)
}

// ---- KLS?

pub fn put_system(out: &mut [u8], at: usize, s: System) -> usize
    requires { Writable s × (at + length (system_text (system_of s)) ≤ length out.old) }
    ensures { Wrote (system_text (system_of s)) out.old at out.new result }
{
    let a = put_text(out, at, b"Name=");
    let b = put_name(out, a, s.name);
    let c = put_text(out, b, b" Type=");
    let d = put_kind(out, c, s.kind);
    put_six_values(out, d, s.offset, s.turns)
}

// ---- KLN?

// The name of the predecessor; pred is that of the user system that it is, if it is one.
fn put_pred(out: &mut [u8], at: usize, s: System, pred: Name) -> usize
    requires { (pred.len ≤ name_limit) × (at + length (pred_text (system_of s) (bytes_of pred)) ≤ length out.old) }
    ensures { Wrote (pred_text (system_of s) (bytes_of pred)) out.old at out.new result }
{
    put_system_name(out, at, group_of(s.kind), s.pred, pred)
}

pub fn put_link(out: &mut [u8], at: usize, s: System, pred: Name) -> usize
    requires { (s.name.len ≤ name_limit) × (pred.len ≤ name_limit) × (at + length (link_text (system_of s) (bytes_of pred)) ≤ length out.old) }
    ensures { Wrote (link_text (system_of s) (bytes_of pred)) out.old at out.new result }
{
    let a = put_name(out, at, s.name);
    let b = put_text(out, a, b"=");
    put_pred(out, b, s, pred)
}

// ---- KEN?

pub fn put_enabled(out: &mut [u8], at: usize, g: Group, place: u8, s: System) -> usize
    requires { (0 < place → s.name.len ≤ name_limit) × (at + length (enabled_text g place (system_of s)) ≤ length out.old) }
    ensures { Wrote (enabled_text g place (system_of s)) out.old at out.new result }
{
    if place == 0 {
        return put_by_group(
            out,
            at,
            g,
            b"ZERO=ZERO",
            b"PI_BASE=KSB(PI)",
            b"PI_LEVELLING=KLD(PI)",
        );
    }
    let a = put_name(out, at, s.name);
    let b = put_text(out, a, b"=");
    put_kind(out, b, s.kind)
}

// ---- KLT?

// A pose by its offset and shown triple, and steps.
pub fn put_pose(out: &mut [u8], at: usize, t: Vec3, shown: Turns, steps: u8) -> usize
    requires { Within reach t × (turns_fine shown ≡ true) × (at + length (pose_text t shown steps) ≤ length out.old) }
    ensures { Wrote (pose_text t shown steps) out.old at out.new result }
{
    let a = put_six_values(out, at, t, shown);
    let b = put_text(out, a, b" Steps=");
    put_decimal(out, b, steps as u64)
}

// The line of a user system, with the end of its chain.
pub fn put_resultant(
    out: &mut [u8],
    at: usize,
    name: Name,
    g: Group,
    t: Vec3,
    shown: Turns,
    steps: u8,
) -> usize
    requires { (name.len ≤ name_limit) × Within reach t × (turns_fine shown ≡ true) × (at + length (resultant_text (bytes_of name) (of_group g).end t shown steps) ≤ length out.old) }
    ensures { Wrote (resultant_text (bytes_of name) (of_group g).end t shown steps) out.old at out.new result }
{
    let a = put_text(out, at, b"Name=");
    let b = put_name(out, a, name);
    let c = put_text(out, b, b" EndCoordinateSystem=");
    let d = put_end(out, c, g);
    put_pose(out, d, t, shown, steps)
}
