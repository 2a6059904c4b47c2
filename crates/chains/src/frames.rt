// Frames: own offsets and turns beside the links, and the resultant that the walk along them reaches.
ghost use Rattle.std.specs.Prelude.{◌≡◌, ◌≤◌};
ghost use Rattle.model.specs.Stored.{FineMemory, systems_of};
ghost use Rattle.pose.specs.Poses.{pose_of};
ghost use Rattle.chains.specs.Flat.{preds_of, LinksOf};
ghost use Rattle.chains.specs.Frames.{framed, frames_of};
ghost use Rattle.chains.specs.Walk.{walk_of, walked, at_fixed, link_on, undone_of, pose_at, Holds, Linkable, Laid, Enough, Near, Known, Reaches};

use crate::held::held;
use crate::links::Links;
use facts::limits::MAX_SYSTEMS;
use model::{Memory, Rot, Turns, Vec3};
use pose::Pose;

// Own offsets and turns, three numbers to a system.
#[derive(Clone, Copy)]
pub struct Frames {
    pub offsets: [i64; MAX_SYSTEMS * 3],
    pub turns: [u8; MAX_SYSTEMS * 3],
}

// The frames of a memory. Its links are the other half of what a walk needs.
pub fn frames_of(m: Memory) -> Frames
    ensures { framed result.offsets result.turns (preds_of (systems_of m)) ≡ frames_of (systems_of m) }
{
    let mut offsets = [0i64; MAX_SYSTEMS * 3];
    let mut turns = [0u8; MAX_SYSTEMS * 3];
    for (i, s) in held(&m.systems, m.count).iter().enumerate() {
        let at = i * 3;
        offsets[at] = s.offset.x;
        offsets[at + 1] = s.offset.y;
        offsets[at + 2] = s.offset.z;
        turns[at] = s.turns.u;
        turns[at + 1] = s.turns.v;
        turns[at + 2] = s.turns.w;
    }
    Frames { offsets, turns }
}

// What a walk has reached: the resultant's offset and rotation, and how many links it followed. (One row without gaps: a struct with a pose in it takes
// longer to copy, and a walk copies what it has reached at every link.)
#[derive(Clone, Copy)]
pub struct Reached {
    pub at: Vec3,
    pub rot: Rot,
    pub steps: u8,
}

// The own pose of system i, counted from 0.
fn own(offsets: &[i64], turns: &[u8], i: usize) -> Pose
    requires { Holds offsets.now turns.now i }
    ensures { pose_of result ≡ pose_at offsets.now turns.now i }
{
    let at = i * 3;
    let offset = Vec3 {
        x: offsets[at],
        y: offsets[at + 1],
        z: offsets[at + 2],
    };
    let own_turns = Turns {
        u: turns[at],
        v: turns[at + 1],
        w: turns[at + 2],
    };
    Pose::of(offset, own_turns)
}

// What is reached at a fixed system, before any link.
pub fn unmoved() -> Reached
    ensures { walk_of result ≡ at_fixed }
{
    let pose = Pose::neutral();
    Reached {
        at: pose.at,
        rot: pose.rot,
        steps: 0,
    }
}

// One link on: the own pose of system i followed on from what its predecessor reached.
fn linked(before: Reached, offsets: &[i64], turns: &[u8], i: usize) -> Reached
    requires { Linkable offsets.now turns.now i (walk_of before) }
    ensures { walk_of result ≡ link_on (walk_of before) (pose_at offsets.now turns.now i) }
{
    let so_far = Pose {
        at: before.at,
        rot: before.rot,
    };
    let pose = so_far.follow(own(offsets, turns, i));
    let steps = before.steps + 1;
    Reached {
        at: pose.at,
        rot: pose.rot,
        steps,
    }
}

// The resultant of a place and its steps, by a walk to its predecessor with one link less of depth. It ends at the fixed system, or sooner at a
// place `stop` that has been reached before: what is reached there is known. (A walk that stops at the fixed system may begin there with any pose, which
// the resultant then follows on from.) In a well-formed memory a depth of MAX_SYSTEMS is enough for every place.
pub fn reach(
    offsets: &[i64],
    turns: &[u8],
    preds: &[u8],
    stop: usize,
    known: Reached,
    place: usize,
    depth: usize,
) -> Reached
    requires laid { Laid offsets.now turns.now preds.now }
    requires known { Known (framed offsets.now turns.now preds.now) stop (walk_of known) }
    requires enough { Enough (framed offsets.now turns.now preds.now) place depth }
    ensures { Reaches (framed offsets.now turns.now preds.now) stop (walk_of known) place (walk_of result) }
{
    if place == stop {
        return known;
    }
    if place == 0 {
        return unmoved();
    }
    let i = place - 1;
    let pred = preds[i] as usize;
    let before = reach(offsets, turns, preds, stop, known, pred, depth - 1);
    linked(before, offsets, turns, i)
}

// The resultant of a place and its steps, where the links have been laid flat: one walk of its own, for which the frames are laid flat too.
pub fn walk_from(m: Memory, links: Links, place: u8) -> Reached
    requires fine_memory { FineMemory m }
    requires links_of { LinksOf (systems_of m) links.preds links.count }
    requires place_le_count { place ≤ m.count }
    ensures { walk_of result ≡ walked (systems_of m) place }
{
    let start = unmoved();
    if place == 0 {
        return start;
    }
    let frames = frames_of(m);
    reach(
        &frames.offsets,
        &frames.turns,
        links.flat(),
        0,
        start,
        place as usize,
        MAX_SYSTEMS,
    )
}

// What undoes what was reached: the inverse pose, with the links that led there. A walk that goes on from it sees another system from this one.
pub fn undone(r: Reached) -> Reached
    requires { Near (walk_of r) }
    ensures { walk_of result ≡ undone_of (walk_of r) }
{
    let there = Pose {
        at: r.at,
        rot: r.rot,
    };
    let back = there.inverse();
    Reached {
        at: back.at,
        rot: back.rot,
        steps: r.steps,
    }
}
