// The test that no two systems have one name. A key is made of each name first: names with different keys need no look at their bytes.
ghost use Rattle.std.specs.Prelude.{min, ◌≡◌, take};
ghost use Rattle.model.specs.Limits.{max_systems};
ghost use Rattle.model.specs.WellFormed.{names_differ};
ghost use Rattle.model.specs.Stored.{bytes_of, systems_of};
ghost use Rattle.memory.specs.Keys.{key_of, keys_of};

use crate::names::same_name;
use chains::held::held;
use facts::limits::MAX_SYSTEMS;
use model::{Memory, Name};

fn name_key(n: Name) -> u32
    ensures { result ≡ key_of (bytes_of n) }
{
    let t = held(&n.bytes, n.len);
    match (t.first(), t.last()) {
        (Some(first), Some(last)) => t.len() as u32 + 256 * *first as u32 + 65536 * *last as u32,
        _ => 0,
    }
}

// The keys of the systems that count; behind them there are zeros. (There is no heap: the array has room for all.)
fn name_keys(m: Memory) -> [u32; MAX_SYSTEMS]
    ensures { take (min m.count max_systems) result ≡ keys_of (systems_of m) }
{
    let mut keys = [0u32; MAX_SYSTEMS];
    for (i, s) in held(&m.systems, m.count).iter().enumerate() {
        keys[i] = name_key(s.name);
    }
    keys
}

// Every pair once, the later of the two running fastest.
pub fn names_differ(m: Memory) -> bool
    ensures { result ≡ names_differ (systems_of m) }
{
    let systems = held(&m.systems, m.count);
    let keys = name_keys(m);
    for i in 0..systems.len() {
        for j in i + 1..systems.len() {
            if keys[i] == keys[j] && same_name(systems[i].name, systems[j].name) {
                return false;
            }
        }
    }
    true
}
