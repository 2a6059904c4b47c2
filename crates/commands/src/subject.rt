// What the ladder asks of the names and the links, from one look at the volatile memory: later tests do not look at it again.
ghost use Rattle.std.specs.Prelude.{◌≡◌, true, List};
ghost use Rattle.model.specs.Memory.{System as SystemOf, Memory as MemoryOf, ref_or, system_at, place_named};
ghost use Rattle.model.specs.Stored.{bytes_of, memory_shaped};
ghost use Rattle.memory.specs.Found.{found_ref, found_place};
ghost use Rattle.commands.specs.Subject.{Tells, Sees};

use chains::links::Links;
use facts::kinds::group_of;
use memory::find::{Found, found_at, places_named};
use memory::names::reserved_name;
use model::{Enabled, Group, Kind, Memory, Name, System};

// What a name means, if any system has it; whether it is reserved; and the place, group and type of its system. (Place 0 is no user system, as in the
// definitions' Meant.)
#[derive(Clone, Copy)]
pub struct Subject {
    pub found: Option<Found>,
    pub reserved: bool,
    pub place: u8,
    pub group: Group,
    pub kind: Kind,
}

// Two names, the first one's system, the links, and what is enabled.
#[derive(Clone, Copy)]
pub struct Looked {
    pub first: Subject,
    pub second: Subject,
    pub source: System,
    pub links: Links,
    pub enabled: Enabled,
}

// The group, where the type at a user system's place is known. Nothing found counts as ZERO, as in the definitions.
#[tactic(auto, unfolding(memory::specs::Found::found_told, memory::specs::Found::found_place, model::specs::Memory::ref_or))]
fn group_found(f: Option<Found>, kind: Kind) -> Group
    ensures { (l : List SystemOf) → kind ≡ (system_at l (found_place f)).kind → result ≡ (ref_or (found_ref l f)).group }
{
    match f {
        Some(Found::User(_)) => group_of(kind),
        Some(Found::Fixed(group)) => group,
        None => Group::Operating,
    }
}

// All of a name whose place and type are known.
fn about(n: Name, place: u8, kind: Kind) -> Subject
    ensures { (m : MemoryOf) → place ≡ place_named m.systems (bytes_of n) → kind ≡ (system_at m.systems place).kind → Tells m (bytes_of n) result }
{
    let found = found_at(place, n);
    let group = group_found(found, kind);
    Subject {
        found,
        reserved: reserved_name(n),
        place,
        group,
        kind,
    }
}

pub fn look(m: Memory, a: Name, b: Name) -> Looked
    requires { memory_shaped m ≡ true }
    ensures { Sees m (bytes_of a) (bytes_of b) result }
{
    let places = places_named(m, a, b);
    let first = about(a, places.first, places.one.kind);
    let second = about(b, places.second, places.other.kind);
    Looked {
        first,
        second,
        source: places.one,
        links: places.links,
        enabled: m.enabled,
    }
}
