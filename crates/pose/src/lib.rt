// A pose: where a system stands and how it is turned; following one pose on from another, and the inverse.
#![tactic(auto)]

ghost use Rattle.std.specs.Prelude.{◌≡◌};
ghost use Rattle.model.specs.Pose.{plus, minus, rot_of, origin, neutral, followed, inverse};
ghost use Rattle.pose.specs.Poses.{pose_of, Within, widest, reach};

use model::{Dir, Rot, Turns, Vec3};

pub mod rotation; // rotation.rt: rotations by rows, and the triples of quarter turns that name them

// A point q of the system, as a column, stands at `at + rot·q` in the predecessor's axes.
#[derive(Clone, Copy)]
pub struct Pose {
    pub at: Vec3,
    pub rot: Rot,
}

pub fn sum(p: Vec3, q: Vec3) -> Vec3
    requires p_near { Within reach p }
    requires q_near { Within reach q }
    ensures { result ≡ plus p q }
{
    Vec3 {
        x: p.x + q.x,
        y: p.y + q.y,
        z: p.z + q.z,
    }
}

// −p
fn opposite(p: Vec3) -> Vec3
    requires { Within widest p }
    ensures { result ≡ minus p }
{
    Vec3 {
        x: -p.x,
        y: -p.y,
        z: -p.z,
    }
}

impl Pose {
    // The pose that changes nothing.
    pub const NEUTRAL: Pose = Pose {
        at: Vec3 { x: 0, y: 0, z: 0 },
        rot: Rot {
            a: Dir::Px,
            b: Dir::Py,
            c: Dir::Pz,
        },
    };

    // The constant, with what is promised of it.
    pub fn neutral() -> Pose
        ensures { pose_of result ≡ neutral }
    {
        Pose::NEUTRAL
    }

    // These turns, with no offset.
    pub fn of_turns(turns: Turns) -> Pose
        ensures { pose_of result ≡ record { at = origin; rot = rot_of turns } }
    {
        Pose {
            rot: rotation::named(turns),
            ..Pose::neutral()
        }
    }

    // A system's own pose: its turns, and then its offset.
    pub fn of(offset: Vec3, turns: Turns) -> Pose
        ensures { pose_of result ≡ record { at = offset; rot = rot_of turns } }
    {
        Pose {
            at: offset,
            ..Pose::of_turns(turns)
        }
    }

    // The predecessor's pose, and a system's own pose followed on from it.
    pub fn follow(self, own: Pose) -> Pose
        requires self_near { Within reach self.at }
        requires own_near { Within reach own.at }
        ensures { pose_of result ≡ followed (pose_of self) (pose_of own) }
    {
        let turned = rotation::turn(self.rot, own.at);
        let at = sum(self.at, turned);
        let rot = rotation::compose(self.rot, own.rot);
        Pose { at, rot }
    }

    // The pose that undoes this one, from either side (where its axes are a rotation).
    pub fn inverse(self) -> Pose
        requires { Within widest self.at }
        ensures { pose_of result ≡ inverse (pose_of self) }
    {
        let back = rotation::transpose(self.rot);
        let away = opposite(self.at);
        let at = rotation::turn(back, away);
        Pose { at, rot: back }
    }
}
