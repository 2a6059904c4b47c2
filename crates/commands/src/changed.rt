// What is decided of a change: what it does, or why it is refused. The memory itself is edited by whoever holds it, in place.
ghost use Rattle.std.specs.Prelude.{◌≡◌};
ghost use Rattle.model.specs.Use.{name_in_use};
ghost use Rattle.model.specs.Stored.{system_of, memory_of};
ghost use Rattle.commands.specs.Done.{saving, settle, Doable, Applied};

use crate::conditions::name_used;
use facts::refusals::Refusal;
use memory::edit::{put_at, removed_at};
use memory::factory::factory_memory;
use model::{Enabled, Memory, State, System};

// What an accepted line does to the state. Places and values are those that are set, systems are those that are put or taken away.
// A removal still depends on the permanent memory (`settled`).
#[derive(Clone, Copy)]
pub enum Deed {
    Keep,
    SetError(u8),
    Put(u8, System),
    Remove(u8, System),
    Enable(Enabled),
    SetLevel(u8),
    Save,
    Restore,
    Reset,
}

// Whether it saves: the volatile memory goes into the permanent one's place.
#[tactic(auto, unfolding(crate::specs::Done::saving))]
pub fn saves(deed: Deed) -> bool
    ensures { result ≡ saving deed }
{
    matches!(deed, Deed::Save)
}

// The next start needs what a removal takes away: its name is in use in the permanent memory.
fn needed(saved: Memory, gone: System) -> bool
    ensures { result ≡ name_in_use (memory_of saved) (system_of gone).name }
{
    name_used(saved, gone.name)
}

// A deed, once the permanent memory has been looked at; only a removal is looked up there. A line is judged without that memory, since to hand it over would
// copy it for every line. The search is left to `needed` for the same reason: as a part of this function it copies the memory before the test.
#[tactic(auto, unfolding(crate::specs::Done::settle))]
pub fn settled(saved: Memory, deed: Deed) -> Result<Deed, Refusal>
    ensures { result ≡ settle (memory_of saved) deed }
{
    match deed {
        Deed::Remove(_, gone) if needed(saved, gone) => Err(Refusal::Needed),
        _ => Ok(deed),
    }
}

// The state once it is done, or once the last error tells why nothing is.
pub fn applied(s: State, decided: Result<Deed, Refusal>) -> State
    requires { Doable s.volatile decided }
    ensures { Applied s decided result }
{
    let mut r = s;
    match decided {
        Err(why) => r.error = u8::from(why),
        Ok(Deed::Keep) => {}
        Ok(Deed::SetError(n)) => r.error = n,
        Ok(Deed::Put(place, system)) => r.volatile = put_at(s.volatile, place, system),
        Ok(Deed::Remove(place, _)) => r.volatile = removed_at(s.volatile, place),
        Ok(Deed::Enable(e)) => r.volatile.enabled = e,
        Ok(Deed::SetLevel(n)) => r.level = n,
        Ok(Deed::Save) => r.permanent = s.volatile,
        Ok(Deed::Restore) => r.volatile = s.permanent,
        Ok(Deed::Reset) => r.volatile = factory_memory(),
    }
    r
}
