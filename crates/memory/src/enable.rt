// What is enabled next.
ghost use Rattle.std.specs.Prelude.{◌≡◌, List};
ghost use Rattle.model.specs.Memory.{System as SystemOf, ref_or, system_at};
ghost use Rattle.model.specs.Effects.{with_operating, with_orientational, with_levelling, enabled_user, enabled_fixed, enabling};
ghost use Rattle.model.specs.Use.{in_group};
ghost use Rattle.memory.specs.Found.{found_ref, found_place};
ghost use Rattle.memory.specs.Put.{holding};

use crate::find::Found;
use facts::halves::{tool_half, work_half};
use model::{Enabled, Group, Kind, OperatingPart};

fn with_operating(e: Enabled, operating: OperatingPart) -> Enabled
    ensures { result ≡ with_operating e operating }
{
    Enabled { operating, ..e }
}

fn with_orientational(e: Enabled, place: u8) -> Enabled
    ensures { result ≡ with_orientational e place }
{
    Enabled {
        orientational: place,
        ..e
    }
}

fn with_levelling(e: Enabled, place: u8) -> Enabled
    ensures { result ≡ with_levelling e place }
{
    Enabled {
        levelling: place,
        ..e
    }
}

// The user system at a place, by its type.
fn enabled_user(e: Enabled, kind: Kind, place: u8) -> Enabled
    ensures { result ≡ enabled_user e kind place }
{
    let o = e.operating;
    match kind {
        Kind::Ksd => with_operating(e, OperatingPart::Single(place)),
        Kind::Kst => with_operating(e, OperatingPart::Pair(work_half(o), place)),
        Kind::Ksw => with_operating(e, OperatingPart::Pair(place, tool_half(o))),
        Kind::Ksb => with_orientational(e, place),
        Kind::Kld => with_levelling(e, place),
        Kind::Ksf => with_operating(e, OperatingPart::Single(place)),
    }
}

// A fixed system; ZERO at level 1 brings PI_LEVELLING with it.
fn enabled_fixed(level: u8, e: Enabled, group: Group) -> Enabled
    ensures { result ≡ enabled_fixed level e group }
{
    match group {
        Group::Operating => enabled_zero(level, e),
        Group::Orientational => with_orientational(e, 0),
        Group::Levelling => with_levelling(e, 0),
    }
}

fn enabled_zero(level: u8, e: Enabled) -> Enabled
    ensures { result ≡ enabled_fixed level e Group.Operating }
{
    let zero = with_operating(e, OperatingPart::Single(0));
    if level == 1 {
        return with_levelling(zero, 0);
    }
    zero
}

// The system of a group at a place, by its type: place 0 is the fixed one.
fn enabling_at(level: u8, e: Enabled, kind: Kind, group: Group, place: u8) -> Enabled
    ensures { (l : List SystemOf) → kind ≡ (system_at l place).kind → result ≡ enabling level (holding l e) (in_group group place) }
{
    if place == 0 {
        return enabled_fixed(level, e, group);
    }
    enabled_user(e, kind, place)
}

// What is enabled once the system that was found is; kind is the type at its place. Nothing found counts as ZERO, as in the definitions.
pub fn enabling(level: u8, e: Enabled, kind: Kind, f: Option<Found>) -> Enabled
    ensures { (l : List SystemOf) → kind ≡ (system_at l (found_place f)).kind → result ≡ enabling level (holding l e) (ref_or (found_ref l f)) }
{
    let Some(found) = f else {
        return enabling_at(level, e, kind, Group::Operating, 0);
    };
    match found {
        Found::User(place) => enabling_at(level, e, kind, Group::Operating, place),
        Found::Fixed(group) => enabling_at(level, e, kind, group, 0),
    }
}
