// Where the stage is.
ghost use Rattle.std.specs.Prelude.{◌≡◌, true};
ghost use Rattle.model.specs.Stage.{position_fine, spot};
ghost use Rattle.model.specs.Stored.{FineMemory, memory_of, systems_of};
ghost use Rattle.chains.specs.Flat.{LinksOf};
ghost use Rattle.pose.specs.Poses.{pose_of};

use chains::frames::walk_from;
use chains::links::Links;
use facts::halves::operating_place;
use model::{Memory, Position};
use pose::rotation::turn;
use pose::{Pose, sum};

// The spot that the platform is over, in the group's fixed system: the resultant of the enabled operating system, followed by the position's offset. (The step has no
// turn, so it is turned and added here: with a call of `Pose::follow` that function would have two callers, and the walk of the listings would take a quarter longer.)
pub fn spot(m: Memory, links: Links, p: Position) -> Pose
    requires fine_memory { FineMemory m }
    requires links_of { LinksOf (systems_of m) links.preds links.count }
    requires p_fine { position_fine p ≡ true }
    ensures { pose_of result ≡ spot (memory_of m) p }
{
    let r = walk_from(m, links, operating_place(m.enabled.operating));
    let step = turn(r.rot, p.offset);
    let at = sum(r.at, step);
    Pose { at, rot: r.rot }
}
