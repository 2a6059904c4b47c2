// Systems by their names. Every stored value has an answer: a count beyond the array means the whole array.
ghost use Rattle.std.specs.Prelude.{◌≡◌, ◌&&◌, List, eqb, length};
ghost use Rattle.model.specs.Lists.{same};
ghost use Rattle.model.specs.Memory.{System as SystemOf, place_named, fixed_named, find};
ghost use Rattle.model.specs.Kinds.{groups};
ghost use Rattle.model.specs.Told.{or_number};
ghost use Rattle.model.specs.Stored.{bytes_of, system_of, systems_of, memory_of};
ghost use Rattle.chains.specs.Flat.{LinksOf};
ghost use Rattle.memory.specs.Found.{found_told, found_place, Real, Stands};
ghost use Rattle.memory.specs.Put.{holding};

use crate::factory::blank_system;
use crate::names::{has_bytes, same_name};
use chains::held::held;
use chains::links::Links;
use facts::limits::MAX_SYSTEMS;
use model::{Enabled, Group, Memory, Name, System};
use text::names::same_bytes;

// The system that a name means: the user system at a place, or a group's fixed system. (No system at all is None, which number 7 says.)
#[derive(Clone, Copy)]
pub enum Found {
    User(u8),
    Fixed(Group),
}

// Where two names stand: their places, 0 where no user system has the name, and the systems there, blank ones at place 0. The links lie beside them. (No
// Option: places are numbers of the definitions, where place 0 is nobody's, and the ladder asks for the blank system's type too.)
#[derive(Clone, Copy)]
pub struct Places {
    pub first: u8,
    pub one: System,
    pub second: u8,
    pub other: System,
    pub links: Links,
}

// A name that has no place yet is this system's.
fn hits(place: u8, n: Name, s: System) -> bool
    ensures { result ≡ eqb place 0 && same (bytes_of n) (system_of s).name }
{
    place == 0 && same_name(n, s.name)
}

// Both names and the links in one pass over the memory, since each pass copies it.
pub fn places_named(m: Memory, a: Name, b: Name) -> Places
    ensures first_stands { Stands m (bytes_of a) result.first result.one }
    ensures second_stands { Stands m (bytes_of b) result.second result.other }
    ensures links_of { LinksOf (systems_of m) result.links.preds result.links.count }
    ensures count_value { result.links.count ≡ length (systems_of m) }
{
    let systems = held(&m.systems, m.count);
    let mut first = 0;
    let mut one = blank_system();
    let mut second = 0;
    let mut other = one;
    let mut preds = [0u8; MAX_SYSTEMS];
    for (i, s) in systems.iter().enumerate() {
        preds[i] = s.pred;
        if hits(first, a, *s) {
            first = i as u8 + 1;
            one = *s;
        }
        if hits(second, b, *s) {
            second = i as u8 + 1;
            other = *s;
        }
    }
    let count = systems.len();
    let links = Links { preds, count };
    Places {
        first,
        one,
        second,
        other,
        links,
    }
}

// The place of the user system whose name has these bytes, 0 if there is none: the definitions' `place_named`, where place 0 is nobody's.
fn place_named(m: Memory, t: &[u8]) -> u8
    ensures { result ≡ place_named (systems_of m) t.now }
{
    for (i, s) in held(&m.systems, m.count).iter().enumerate() {
        if has_bytes(s.name, t) {
            return i as u8 + 1;
        }
    }
    0
}

// The same of a stored name.
pub fn place_of(m: Memory, n: Name) -> u8
    ensures { result ≡ place_named (systems_of m) (bytes_of n) }
{
    place_named(m, held(&n.bytes, n.len))
}

// The fixed system of that name. (Tests in a row: a table of the names would be laid out on the stack at each call, docs/DECISIONS.md 5.)
fn fixed_named(t: &[u8]) -> Option<Found>
    ensures told { (l : List SystemOf) → found_told l result ≡ or_number 7 (fixed_named groups t.now) }
    ensures place_value { found_place result ≡ 0 }
    ensures real { Real result }
{
    if same_bytes(t, b"ZERO") {
        return Some(Found::Fixed(Group::Operating));
    }
    if same_bytes(t, b"PI_BASE") {
        return Some(Found::Fixed(Group::Orientational));
    }
    if same_bytes(t, b"PI_LEVELLING") {
        return Some(Found::Fixed(Group::Levelling));
    }
    None
}

// What bytes mean as a name whose user system stands at a place, 0 if it has none.
fn found_bytes(place: u8, t: &[u8]) -> Option<Found>
    ensures told { (l : List SystemOf) (e : Enabled) → place ≡ place_named l t.now → found_told l result ≡ or_number 7 (find (holding l e) t.now) }
    ensures place_value { found_place result ≡ place }
    ensures real { Real result }
{
    if 0 < place {
        return Some(Found::User(place));
    }
    fixed_named(t)
}

// The same of a stored name.
pub fn found_at(place: u8, n: Name) -> Option<Found>
    ensures told { (l : List SystemOf) (e : Enabled) → place ≡ place_named l (bytes_of n) → found_told l result ≡ or_number 7 (find (holding l e) (bytes_of n)) }
    ensures place_value { found_place result ≡ place }
{
    found_bytes(place, held(&n.bytes, n.len))
}

// The same of any bytes, in a memory.
pub fn found_named(m: Memory, t: &[u8]) -> Option<Found>
    ensures told { found_told (systems_of m) result ≡ or_number 7 (find (memory_of m) t.now) }
    ensures real { Real result }
{
    let place = place_named(m, t);
    found_bytes(place, t)
}
