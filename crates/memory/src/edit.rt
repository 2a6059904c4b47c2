// Edits of a memory by places: a system put or removed. A search by name gives the places.
ghost use Rattle.std.specs.Prelude.{◌<◌, ◌≤◌, ◌≡◌, true, List, length};
ghost use Rattle.model.specs.Limits.{max_systems};
ghost use Rattle.model.specs.Memory.{System as SystemOf};
ghost use Rattle.model.specs.Effects.{with_pred, with_name, first_pred, fresh, moved_up, mended, mended_system, mended_part, mended_enabled, removed_at};
ghost use Rattle.model.specs.Stored.{bytes_of, system_of, systems_of, memory_of, name_shaped, memory_shaped};
ghost use Rattle.memory.specs.Put.{put_at, holding, kept_at};

use chains::held::held;
use facts::kinds::group_of;
use model::{Enabled, Group, Kind, Memory, Name, OperatingPart, System, Turns, Vec3};

// The memory with a system put at its place; place 0 is a new one's, which goes last.
pub fn put_at(m: Memory, place: u8, s: System) -> Memory
    requires { (place ≤ max_systems) × (place ≡ 0 → m.count < max_systems) }
    ensures stands_for { memory_of result ≡ put_at (memory_of m) place (system_of s) }
    ensures shaped { memory_shaped m ≡ true → name_shaped s ≡ true → memory_shaped result ≡ true }
{
    let count = m.count;
    let mut r = m;
    if place == 0 {
        let last = count as usize;
        r.systems[last] = s;
        r.count = count + 1;
        return r;
    }
    let at = place as usize - 1;
    r.systems[at] = s;
    r
}

// The system with another predecessor. (One copy and one store: `System { pred, ..s }` is copied field by field, which cost every removal 15 % more.)
pub fn relinked(s: System, pred: u8) -> System
    ensures stands_for { system_of result ≡ with_pred (system_of s) pred }
    ensures name_value { result.name ≡ s.name }
{
    let mut r = s;
    r.pred = pred;
    r
}

// The system under another name, by one copy and one store as well.
pub fn renamed(s: System, n: Name) -> System
    ensures stands_for { system_of result ≡ with_name (system_of s) (bytes_of n) }
    ensures name_value { result.name ≡ n }
{
    let mut r = s;
    r.name = n;
    r
}

fn first_pred(e: Enabled, g: Group) -> u8
    ensures { result ≡ first_pred e g }
{
    match g {
        Group::Operating => 0,
        Group::Orientational => e.orientational,
        Group::Levelling => e.levelling,
    }
}

// The system that a definition makes, in any memory where this is enabled.
pub fn fresh_system(e: Enabled, kind: Kind, name: Name, offset: Vec3, turns: Turns) -> System
    ensures stands_for { (l : List SystemOf) → system_of result ≡ fresh (holding l e) kind (bytes_of name) offset turns }
    ensures name_value { result.name ≡ name }
{
    let group = group_of(kind);
    let pred = first_pred(e, group);
    System {
        kind,
        name,
        offset,
        turns,
        pred,
    }
}

// What place q becomes when the system at place a goes, whose own predecessor is p.
fn mended_place(a: u8, p: u8, q: u8) -> u8
    ensures { result ≡ mended a p q }
{
    if q == a {
        return moved_up(a, p);
    }
    moved_up(a, q)
}

// The places behind a move up by one.
fn moved_up(a: u8, q: u8) -> u8
    ensures { result ≡ moved_up a q }
{
    if a < q {
        return q - 1;
    }
    q
}

fn mended_system(a: u8, p: u8, s: System) -> System
    ensures stands_for { system_of result ≡ mended_system a p (system_of s) }
    ensures name_value { result.name ≡ s.name }
{
    relinked(s, mended_place(a, p, s.pred))
}

fn mended_part(a: u8, p: u8, o: OperatingPart) -> OperatingPart
    ensures { result ≡ mended_part (mended a p) o }
{
    match o {
        OperatingPart::Single(q) => OperatingPart::Single(mended_place(a, p, q)),
        OperatingPart::Pair(w, t) => OperatingPart::Pair(
            mended_place(a, p, w),
            mended_place(a, p, t),
        ),
    }
}

fn mended_enabled(a: u8, p: u8, e: Enabled) -> Enabled
    ensures { result ≡ mended_enabled (mended a p) e }
{
    let o = e.operating;
    let operating = mended_part(a, p, o);
    let orientational = mended_place(a, p, e.orientational);
    let levelling = mended_place(a, p, e.levelling);
    Enabled {
        operating,
        orientational,
        levelling,
    }
}

// The memory without the system at a place: each successor gets its predecessor, and all behind move up.
pub fn removed_at(m: Memory, place: u8) -> Memory
    requires { (0 < place) × (place ≤ length (systems_of m)) }
    ensures stands_for { memory_of result ≡ removed_at (memory_of m) place }
    ensures shaped { memory_shaped m ≡ true → memory_shaped result ≡ true }
{
    let last = held(&m.systems, m.count).len() - 1;
    let hole = place as usize - 1;
    let mut r = m;
    let p = r.systems[hole].pred;
    for i in 0..last {
        r.systems[i] = mended_system(place, p, r.systems[kept_at(hole, i)]);
    }
    let enabled = mended_enabled(place, p, r.enabled);
    r.enabled = enabled;
    r.count = last as u8;
    r
}

// The index at which the system stands that comes to index i once the one at the hole is gone.
fn kept_at(hole: usize, i: usize) -> usize
    requires { i < max_systems }
    ensures { result ≡ kept_at hole i }
{
    if i < hole {
        return i;
    }
    i + 1
}
