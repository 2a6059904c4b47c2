// Values in whole millionths: of a millimetre for X Y Z, of a degree for U V W.
ghost use Rattle.std.specs.Prelude.{◌≡◌, true, ◌<◌, ◌^◌};
ghost use Rattle.model.specs.Words.{offset?, offsets_fine, angle?, quarters};
ghost use Rattle.text.specs.Values.{with_sign};

use facts::limits::{MOST_TURNS, OFFSET_LIMIT, QUARTER_TURN, WHOLE_TURN};
use model::Vec3;
use signed::{magnitude, negated};

pub(crate) fn signed(minus: bool, v: u64) -> i64
    requires { v < 2 ^ 63 }
    ensures { result ≡ with_sign minus v }
{
    let n = v as i64;
    if minus {
        return negated(n);
    }
    n
}

pub fn offset_fine(z: i64) -> bool
    ensures { result ≡ offset? z }
{
    magnitude(z) <= OFFSET_LIMIT
}

// X, Y and Z, of a system or of the platform.
pub fn offsets_fine(t: Vec3) -> bool
    ensures { result ≡ offsets_fine t }
{
    offset_fine(t.x) & offset_fine(t.y) & offset_fine(t.z)
}

pub fn angle_fine(z: i64) -> bool
    ensures { result ≡ angle? z }
{
    let m = magnitude(z);
    m % QUARTER_TURN == 0 && m / QUARTER_TURN <= u64::from(MOST_TURNS)
}

// The quarter turns that a listed angle is kept as.
pub fn quarter_turns(z: i64) -> u8
    requires { angle? z ≡ true }
    ensures { result ≡ quarters z }
{
    let q = (magnitude(z) / QUARTER_TURN) as u8;
    if z < 0 {
        return WHOLE_TURN - q;
    }
    q
}
