// The test for use: the enabled systems in the order of KEN?, each followed by its chain, until the system that is sought turns up.
ghost use Rattle.std.specs.Prelude.{◌≡◌, ◌+◌, ◌*◌, ◌≤◌, eqb, length};
ghost use Rattle.model.specs.Limits.{max_systems};
ghost use Rattle.model.specs.Lists.{search, after};
ghost use Rattle.model.specs.Use.{looked_at};
ghost use Rattle.chains.specs.Flat.{linked_by, memory_by};
ghost use Rattle.chains.specs.Searches.{search_of, path, operating_paths, anywhere, meets};

use crate::links::{Search, look_down};
use model::{Enabled, OperatingPart};

// No system has this place.
pub const NOWHERE: usize = 256;

// The place that is sought in each group: a user system's is the same in all of them, a fixed system's is 0 in its own group and nowhere in the others.
#[derive(Clone, Copy)]
pub struct Sought {
    pub operating: usize,
    pub orientational: usize,
    pub levelling: usize,
}

// Whatever stands at the place, in any group.
pub fn at_place(k: usize) -> Sought
    ensures { result ≡ anywhere k }
{
    Sought {
        operating: k,
        orientational: k,
        levelling: k,
    }
}

// An enabled system and its chain, when so many were looked at before.
fn look_along(preds: &[u8], k: usize, q: u8, before: usize) -> Search
    requires { (length preds.now ≤ max_systems) × (before ≤ 3 * (max_systems + 2)) }
    ensures search_value { search_of result ≡ after before (search (eqb k) (path (linked_by preds.now) q)) }
    ensures looked_bound { result.looked ≤ before + (max_systems + 2) }
{
    let end = before + preds.len() + 2;
    look_down(preds, k, q as usize, before, end)
}

// The operating part, the work half before the tool half.
fn look_operating(part: OperatingPart, preds: &[u8], k: usize) -> Search
    requires { length preds.now ≤ max_systems }
    ensures search_value { search_of result ≡ search (eqb k) (operating_paths (linked_by preds.now) part) }
    ensures looked_bound { result.looked ≤ 2 * (max_systems + 2) }
{
    match part {
        OperatingPart::Single(p) => look_along(preds, k, p, 0),
        OperatingPart::Pair(w, t) => {
            let work = look_along(preds, k, w, 0);
            if work.found {
                return work;
            }
            look_along(preds, k, t, work.looked)
        }
    }
}

// The test ends as soon as the system turns up, and tells how many were looked at.
pub fn in_use(enabled: Enabled, preds: &[u8], sought: Sought) -> Search
    requires { length preds.now ≤ max_systems }
    ensures { search_of result ≡ search (meets sought) (looked_at (memory_by preds.now enabled)) }
{
    let part = enabled.operating;
    let first = look_operating(part, preds, sought.operating);
    if first.found {
        return first;
    }
    let second = look_along(
        preds,
        sought.orientational,
        enabled.orientational,
        first.looked,
    );
    if second.found {
        return second;
    }
    look_along(preds, sought.levelling, enabled.levelling, second.looked)
}
