// The test for well-formedness: shape is judged on the stored value, all else on what it stands for.
ghost use Rattle.std.specs.Prelude.{◌≡◌, ◌&&◌, ◌||◌, eqb, leb, map};
ghost use Rattle.model.specs.Lists.{all};
ghost use Rattle.model.specs.Chain.{no_ring};
ghost use Rattle.model.specs.Refusals.{of_line?};
ghost use Rattle.model.specs.WellFormed.{no_offset, turns_fine, own_fine, operating_fine, enabled_fine, memory_fine, well_formed};
ghost use Rattle.model.specs.Stored.{system_of, systems_of, memory_of, state_of, memory_shaped, shaped};
ghost use Rattle.memory.specs.Fine.{stored_fine, stored_all_fine};

use crate::distinct::names_differ;
use crate::kinds::is_kind;
use crate::names::name_fine;
use crate::stage::position_fine;
use chains::held::held;
use chains::links::{links_of, no_ring};
use facts::kinds::turns_only;
use facts::limits::{MAX_SYSTEMS, MOST_TURNS, NAME_LIMIT};
use facts::refusals::of_line;
use model::{Enabled, Kind, Memory, OperatingPart, State, System, Turns, Vec3};
use text::values::offsets_fine;

fn no_offset(t: Vec3) -> bool
    ensures { result ≡ no_offset t }
{
    (t.x == 0) & (t.y == 0) & (t.z == 0)
}

fn turns_fine(t: Turns) -> bool
    ensures { result ≡ turns_fine t }
{
    (t.u <= MOST_TURNS) & (t.v <= MOST_TURNS) & (t.w <= MOST_TURNS)
}

// What is asked of a system by itself.
fn own_fine(s: System) -> bool
    ensures { result ≡ own_fine (system_of s) }
{
    name_fine(s.name)
        && (offsets_fine(s.offset)
            & turns_fine(s.turns)
            & (!turns_only(s.kind) | no_offset(s.offset)))
}

// A stored system, one of these.
fn stored_fine(s: System, systems: &[System]) -> bool
    ensures { result ≡ stored_fine (map system_of systems.now) s }
{
    if NAME_LIMIT < s.name.len as usize {
        return false;
    }
    own_fine(s) && is_kind(systems, s.kind, s.pred)
}

fn systems_fine(systems: &[System]) -> bool
    ensures { result ≡ all (stored_fine (map system_of systems.now)) systems.now }
{
    systems.iter().all(|s| stored_fine(*s, systems))
}

fn operating_fine(systems: &[System], o: OperatingPart) -> bool
    ensures { result ≡ operating_fine (map system_of systems.now) o }
{
    match o {
        OperatingPart::Single(p) => {
            is_kind(systems, Kind::Ksd, p) | is_kind(systems, Kind::Ksf, p)
        }
        OperatingPart::Pair(w, t) => {
            is_kind(systems, Kind::Ksw, w) & is_kind(systems, Kind::Kst, t) & ((0 < w) | (0 < t))
        }
    }
}

fn enabled_fine(systems: &[System], e: Enabled) -> bool
    ensures { result ≡ enabled_fine (map system_of systems.now) e }
{
    operating_fine(systems, e.operating)
        & is_kind(systems, Kind::Ksb, e.orientational)
        & is_kind(systems, Kind::Kld, e.levelling)
}

// All that goes by types: every stored system, and what is enabled.
fn typed_fine(m: Memory) -> bool
    ensures { result ≡ stored_all_fine m && enabled_fine (systems_of m) m.enabled }
{
    let systems = held(&m.systems, m.count);
    systems_fine(systems) && enabled_fine(systems, m.enabled)
}

// No chain is a ring.
fn ring_free(m: Memory) -> bool
    ensures { result ≡ no_ring (systems_of m) }
{
    no_ring(links_of(m).flat())
}

// A memory has shape and is well formed.
pub fn memory_fine(m: Memory) -> bool
    ensures { result ≡ memory_shaped m && memory_fine (memory_of m) }
{
    if MAX_SYSTEMS < m.count as usize {
        return false;
    }
    if !typed_fine(m) {
        return false;
    }
    names_differ(m) && ring_free(m)
}

// A state has shape and is well formed. The few numbers are looked at first, since a memory takes far longer.
pub fn state_fine(s: State) -> bool
    ensures { result ≡ shaped s && well_formed (state_of s) }
{
    if !values_fine(s.level, s.error) {
        return false;
    }
    if !position_fine(s.position) {
        return false;
    }
    memory_fine(s.volatile) && memory_fine(s.permanent)
}

// The level, and a last error that a line can leave.
fn values_fine(level: u8, error: u8) -> bool
    ensures { result ≡ leb level 1 && (eqb error 0 || of_line? error) }
{
    (level <= 1) & ((error == 0) | of_line(error))
}
