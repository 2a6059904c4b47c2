// The changes of the systems. Their names have been looked up; each is judged, and what is to be done is told. (That a new name is no longer than a name
// may be is asked of the caller, and no fact of `Name`: `machine::line` takes a state with any byte there, as `LinePromise` says.)
ghost use Rattle.std.specs.Prelude.{◌≡◌, List, ℕ, ◌≤◌, true};
ghost use Rattle.model.specs.Limits.{name_limit};
ghost use Rattle.model.specs.Request.{define, locate, link, copy, remove, enable};
ghost use Rattle.model.specs.Stage.{position_fine};
ghost use Rattle.model.specs.Stored.{FineMemory, bytes_of, memory_of, systems_of};
ghost use Rattle.chains.specs.Flat.{LinksOf};
ghost use Rattle.commands.specs.Subject.{Tells, Sees};
ghost use Rattle.commands.specs.Done.{Decides};

use crate::changed::Deed;
use crate::judge::{
    judge_copy, judge_define, judge_enable, judge_link, judge_locate, judge_remove,
};
use crate::stage::spot;
use crate::subject::{Looked, Subject};
use facts::refusals::Refusal;
use memory::edit::{fresh_system, relinked, renamed};
use memory::enable::enabling;
use model::{Enabled, Kind, Memory, Name, Position, State, System, Turns, Vec3};
use pose::rotation::shown_of;

// KSD, KST, KSW, KSB, KLD.
pub fn define(
    k: Looked,
    level: u8,
    kind: Kind,
    n: Name,
    offset: Vec3,
    turns: Turns,
) -> Result<Deed, Refusal>
    requires { n.len ≤ name_limit }
    ensures { (s : State) (y : List ℕ) → s.level ≡ level → Sees s.volatile (bytes_of n) y k → Decides s (define kind (bytes_of n) offset turns) result }
{
    judge_define(k, level, kind)?;
    let made = fresh_system(k.enabled, kind, n, offset, turns);
    Ok(Deed::Put(k.first.place, made))
}

// KSF: a frame where the stage is. Its turns are the triple that the spot's rotation is shown as.
pub fn locate(m: Memory, p: Position, k: Looked, n: Name) -> Result<Deed, Refusal>
    requires fine_memory { FineMemory m }
    requires p_fine { position_fine p ≡ true }
    requires links_of { LinksOf (systems_of m) k.links.preds k.links.count }
    requires name_len { n.len ≤ name_limit }
    ensures { (s : State) (y : List ℕ) → s.volatile ≡ m → s.position ≡ p → Sees m (bytes_of n) y k → Decides s (locate (bytes_of n)) result }
{
    let here = spot(m, k.links, p);
    judge_locate(k, p, here.at)?;
    let made = fresh_system(k.enabled, Kind::Ksf, n, here.at, shown_of(here.rot));
    Ok(Deed::Put(k.first.place, made))
}

// KLN: the second name becomes the predecessor of the first.
pub fn link(k: Looked, level: u8) -> Result<Deed, Refusal>
    ensures { (s : State) (x y : List ℕ) → s.level ≡ level → Sees s.volatile x y k → Decides s (link x y) result }
{
    judge_link(k, level)?;
    let made = relinked(k.source, k.second.place);
    Ok(Deed::Put(k.first.place, made))
}

// KCP: the second name, which is given, gets all that the first has.
pub fn copy(k: Looked, level: u8, to: Name) -> Result<Deed, Refusal>
    requires { to.len ≤ name_limit }
    ensures { (s : State) (x : List ℕ) → s.level ≡ level → Sees s.volatile x (bytes_of to) k → Decides s (copy x (bytes_of to)) result }
{
    judge_copy(k, level)?;
    let made = renamed(k.source, to);
    Ok(Deed::Put(k.second.place, made))
}

// KRM: the first name goes, as far as the volatile memory tells.
pub fn remove(k: Looked, level: u8) -> Result<Deed, Refusal>
    ensures { (s : State) (x y : List ℕ) → s.level ≡ level → Sees s.volatile x y k → Decides s (remove x) result }
{
    judge_remove(k, level)?;
    Ok(Deed::Remove(k.first.place, k.source))
}

// KEN: a name, user or fixed, is enabled, beside what was.
pub fn enable(n: Subject, before: Enabled, level: u8) -> Result<Deed, Refusal>
    ensures { (s : State) (x : List ℕ) → s.level ≡ level → s.volatile.enabled ≡ before → Tells (memory_of s.volatile) x n → Decides s (enable x) result }
{
    judge_enable(n, level)?;
    let after = enabling(level, before, n.kind, n.found);
    Ok(Deed::Enable(after))
}
