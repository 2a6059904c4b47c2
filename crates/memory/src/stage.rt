// The platform's position: what is asked of it.
ghost use Rattle.std.specs.Prelude.{◌≡◌, leb, nat_abs};
ghost use Rattle.model.specs.Limits.{angle_limit};
ghost use Rattle.model.specs.Stage.{angles_fine, position_fine, aslant};

use facts::limits::ANGLE_LIMIT;
use model::{Angles, Position};
use signed::magnitude;
use text::values::offsets_fine;

// An angle of the position, unlike one that is typed, need not be a quarter turn: only its size counts.
fn angle_within(z: i64) -> bool
    ensures { result ≡ leb (nat_abs z) angle_limit }
{
    magnitude(z) <= ANGLE_LIMIT
}

fn angles_fine(a: Angles) -> bool
    ensures { result ≡ angles_fine a }
{
    angle_within(a.u) & angle_within(a.v) & angle_within(a.w)
}

// The position lies within its limits.
pub fn position_fine(p: Position) -> bool
    ensures { result ≡ position_fine p }
{
    let offset = p.offset;
    let angles = p.angles;
    offsets_fine(offset) & angles_fine(angles)
}

// The platform is turned: U, V or W is not zero. A whole turn counts as one.
pub fn aslant(p: Position) -> bool
    ensures { result ≡ aslant p }
{
    let a = p.angles;
    !((a.u == 0) & (a.v == 0) & (a.w == 0))
}
