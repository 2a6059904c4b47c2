// The changes that concern no single system, the level and whole memories: what is decided of each.
ghost use Rattle.std.specs.Prelude.{◌≡◌, cond, eqb, Ok, Err};
ghost use Rattle.model.specs.Request.{set_level, save, restore, reset};
ghost use Rattle.commands.specs.Done.{Decides};

use crate::changed::Deed;
use facts::refusals::Refusal;
use model::State;

// CCL.
pub fn set_level(n: u8) -> Result<Deed, Refusal>
    ensures { (s : State) → Decides s (set_level n) result }
{
    Ok(Deed::SetLevel(n))
}

// WPA: the volatile memory is saved.
pub fn save() -> Result<Deed, Refusal>
    ensures { (s : State) → Decides s save result }
{
    Ok(Deed::Save)
}

// What needs level 1 is refused at level 0.
fn at_level_1(level: u8, deed: Deed) -> Result<Deed, Refusal>
    ensures { result ≡ cond (eqb level 0) (Err Refusal.Locked) (Ok deed) }
{
    if level == 0 {
        Err(Refusal::Locked)
    } else {
        Ok(deed)
    }
}

// RPA: the saved memory comes back.
pub fn restore(level: u8) -> Result<Deed, Refusal>
    ensures { (s : State) → s.level ≡ level → Decides s restore result }
{
    at_level_1(level, Deed::Restore)
}

// DPA: the volatile memory is the factory's.
pub fn reset(level: u8) -> Result<Deed, Refusal>
    ensures { (s : State) → s.level ≡ level → Decides s reset result }
{
    at_level_1(level, Deed::Reset)
}
