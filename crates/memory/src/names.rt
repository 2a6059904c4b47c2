// Names and texts: the same bytes, and what makes a name legal. A length beyond its array means the whole array.
ghost use Rattle.std.specs.Prelude.{◌≡◌, min, not, ◌&&◌};
ghost use Rattle.model.specs.Lists.{same};
ghost use Rattle.model.specs.Limits.{name_limit};
ghost use Rattle.model.specs.Words.{legal_name, reserved};
ghost use Rattle.model.specs.Stored.{bytes_of};

use chains::held::held;
use facts::limits::NAME_LIMIT;
use model::Name;
use text::names::{name_byte, same_bytes};
use text::words::between;

// The name has these bytes.
pub fn has_bytes(n: Name, t: &[u8]) -> bool
    ensures { result ≡ same t.now (bytes_of n) }
{
    same_bytes(t, held(&n.bytes, n.len))
}

pub fn same_name(a: Name, b: Name) -> bool
    ensures { result ≡ same (bytes_of a) (bytes_of b) }
{
    has_bytes(b, held(&a.bytes, a.len))
}

// A name's bytes: a capital, then capitals, digits and underscores, few enough.
pub fn legal_bytes(t: &[u8]) -> bool
    ensures { result ≡ legal_name t.now }
{
    match t {
        [first, rest @ ..] => {
            t.len() <= NAME_LIMIT
                && between(b'A', b'Z', *first)
                && rest.iter().all(|b| name_byte(*b))
        }
        [] => false,
    }
}

// One of four texts. (Tests in a row: a table would be laid out on the stack at each call, docs/DECISIONS.md 5.)
pub fn reserved_bytes(t: &[u8]) -> bool
    ensures { result ≡ reserved t.now }
{
    let zero = same_bytes(t, b"ZERO");
    let base = same_bytes(t, b"PI_BASE");
    let levelling = same_bytes(t, b"PI_LEVELLING");
    let hexapod = same_bytes(t, b"HEXAPOD");
    zero | (base | (levelling | hexapod))
}

pub fn reserved_name(n: Name) -> bool
    ensures { result ≡ reserved (bytes_of n) }
{
    reserved_bytes(held(&n.bytes, n.len))
}

// A user system may have the name.
pub fn name_fine(n: Name) -> bool
    ensures { result ≡ legal_name (bytes_of n) && not (reserved (bytes_of n)) }
{
    let t = held(&n.bytes, n.len);
    legal_bytes(t) && !reserved_bytes(t)
}
