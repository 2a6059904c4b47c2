// The conditions of numbers 9 to 13, over what the names mean and the links that were seen; and that of 20, over a whole memory.
ghost use Rattle.std.specs.Prelude.{◌≡◌, List, length};
ghost use Rattle.model.specs.Memory.{System};
ghost use Rattle.model.specs.Use.{used_at, name_in_use};
ghost use Rattle.model.specs.Stored.{bytes_of, memory_of};
ghost use Rattle.model.specs.Refusals.{locked, other_type, wrong_pred, at_or_before, no_room};
ghost use Rattle.chains.specs.Flat.{LinksOf};
ghost use Rattle.memory.specs.Put.{holding};
ghost use Rattle.commands.specs.Subject.{meant_of};

use crate::subject::Subject;
use chains::links::{Links, links_of, on_chain};
use chains::used::{at_place, in_use};
use facts::groups::guarded;
use facts::limits::MAX_SYSTEMS;
use memory::find::place_of;
use model::{Enabled, Group, Kind, Memory, Name};

// Level 0, and a group that needs level 1.
pub fn locked(level: u8, g: Group) -> bool
    ensures { result ≡ locked level g }
{
    level == 0 && guarded(g)
}

// There is a user system, of another type than k.
#[tactic(auto, using(memory::proofs::Alike::kinds_alike), unfolding(model::specs::Refusals::other_type))]
pub fn other_type(x: Subject, k: Kind) -> bool
    ensures { result ≡ other_type (meant_of x) k }
{
    0 < x.place && x.kind != k
}

// B fits under A neither by its type nor as the fixed system.
#[tactic(auto, using(memory::proofs::Alike::kinds_alike, memory::proofs::Alike::groups_alike), unfolding(model::specs::Refusals::wrong_pred))]
pub fn wrong_pred(a: Subject, b: Subject) -> bool
    ensures { result ≡ wrong_pred (meant_of a) (meant_of b) }
{
    if b.place == 0 {
        b.group != a.group
    } else {
        b.kind != a.kind
    }
}

// There is a system at the place, and it is in use.
#[tactic(auto, using(chains::proofs::Searching::found_anywhere, chains::proofs::Same::links_in_use), unfolding(model::specs::Use::used_at))]
pub fn used_in(links: Links, e: Enabled, place: u8) -> bool
    ensures { (l : List System) → LinksOf l links.preds links.count → result ≡ used_at (holding l e) place }
{
    place != 0 && in_use(e, links.flat(), at_place(place as usize)).found
}

// There is a system at the place, and it is the other one or on its chain.
#[tactic(auto, using(chains::proofs::Same::links_on_chain), unfolding(model::specs::Refusals::at_or_before))]
pub fn at_or_before(links: Links, place: u8, other: u8) -> bool
    ensures { (l : List System) → LinksOf l links.preds links.count → result ≡ at_or_before l place other }
{
    place != 0 && (place == other || on_chain(links.flat(), place as usize, other as usize))
}

// The name is that of a user system of the memory, and it is in use there. Where there is none, no links are laid flat.
#[tactic(auto, unfolding(model::specs::Use::used_at))]
pub fn name_used(m: Memory, n: Name) -> bool
    ensures { result ≡ name_in_use (memory_of m) (bytes_of n) }
{
    let place = place_of(m, n);
    place != 0 && used_in(links_of(m), m.enabled, place)
}

// The name is new, and every place is taken.
#[tactic(auto, unfolding(model::specs::Refusals::no_room))]
pub fn no_room(place: u8, count: usize) -> bool
    ensures { (l : List System) → count ≡ length l → result ≡ no_room l place }
{
    place == 0 && MAX_SYSTEMS <= count
}
