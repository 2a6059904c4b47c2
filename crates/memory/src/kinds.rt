// Types of systems by their places.
ghost use Rattle.std.specs.Prelude.{◌≡◌, map};
ghost use Rattle.model.specs.WellFormed.{is_kind};
ghost use Rattle.model.specs.Stored.{system_of};

use model::{Kind, System};

// The system at the place is of the type; place 0 always is.
pub fn is_kind(systems: &[System], kind: Kind, place: u8) -> bool
    ensures { result ≡ is_kind (map system_of systems.now) kind place }
{
    if place == 0 {
        return true;
    }
    match systems.get(place as usize - 1) {
        Some(s) => s.kind == kind,
        None => false,
    }
}
