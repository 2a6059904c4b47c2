// The lines that reply: the listings of the volatile memory, and the last error.
ghost use Rattle.std.specs.Prelude.{◌≡◌, List, ℕ, ◌≤◌, length, false, Ok};
ghost use Rattle.model.specs.Limits.{buffer_limit};
ghost use Rattle.model.specs.Request.{asks, list, last_error, enabled_ones, systems_all, links, resultants, resultant_of, resultant_in};
ghost use Rattle.model.specs.Stored.{FineMemory, memory_of, state_of};
ghost use Rattle.commands.specs.Obeyed.{obeyed};
ghost use Rattle.commands.specs.Subject.{Tells, Sees};
ghost use Rattle.engine.specs.Taken.{Takes};

use crate::answer::{Step, replied};
use commands::changed::Deed;
use commands::subject::{Looked, Subject};
use facts::refusals::Refusal;
use memory::find::Found;
use model::{Group, Memory, State};
use reply::relative::relative_at;
use reply::resultants::resultant_at;

// KEN?
pub fn enabled_line(m: Memory, reply: &mut [u8]) -> Step
    requires fine_memory { FineMemory m }
    requires room { buffer_limit ≤ length reply.old }
    ensures { (s : State) → s.volatile ≡ m → Takes s false (obeyed (state_of s) (asks (list enabled_ones)) reply.old) (Ok result) reply.new }
{
    replied(reply::enabled::enabled(m, reply))
}

// KLS?
pub fn systems_line(m: Memory, reply: &mut [u8]) -> Step
    requires fine_memory { FineMemory m }
    requires room { buffer_limit ≤ length reply.old }
    ensures { (s : State) → s.volatile ≡ m → Takes s false (obeyed (state_of s) (asks (list systems_all)) reply.old) (Ok result) reply.new }
{
    replied(reply::systems(m, reply))
}

// KLN?
pub fn links_line(m: Memory, reply: &mut [u8]) -> Step
    requires fine_memory { FineMemory m }
    requires room { buffer_limit ≤ length reply.old }
    ensures { (s : State) → s.volatile ≡ m → Takes s false (obeyed (state_of s) (asks (list links)) reply.old) (Ok result) reply.new }
{
    replied(reply::links(m, reply))
}

// KLT?
pub fn resultants_line(m: Memory, reply: &mut [u8]) -> Step
    requires fine_memory { FineMemory m }
    requires room { buffer_limit ≤ length reply.old }
    ensures { (s : State) → s.volatile ≡ m → Takes s false (obeyed (state_of s) (asks (list resultants)) reply.old) (Ok result) reply.new }
{
    replied(reply::resultants::resultants(m, reply))
}

// KLT? with a name that was looked up.
pub fn resultant_line(m: Memory, x: Subject, reply: &mut [u8]) -> Result<Step, Refusal>
    requires fine_memory { FineMemory m }
    requires room { buffer_limit ≤ length reply.old }
    requires there { x.place ≤ m.count }
    ensures { (s : State) (n : List ℕ) → s.volatile ≡ m → Tells (memory_of m) n x → Takes s false (obeyed (state_of s) (asks (list (resultant_of n))) reply.old) result reply.new }
{
    match x.found {
        Some(Found::User(_)) => Ok(replied(resultant_at(m, Group::Operating, x.place, reply))),
        Some(Found::Fixed(group)) => Ok(replied(resultant_at(m, group, 0, reply))),
        None => Err(Refusal::Absent),
    }
}

// KLT? with two names that were looked up: 7 where either is absent, then 10 for systems of different groups.
pub fn relative_line(m: Memory, k: Looked, reply: &mut [u8]) -> Result<Step, Refusal>
    requires fine_memory { FineMemory m }
    requires room { buffer_limit ≤ length reply.old }
    requires there { (k.first.place ≤ m.count) × (k.second.place ≤ m.count) }
    ensures { (s : State) (a b : List ℕ) → s.volatile ≡ m → Sees m a b k → Takes s false (obeyed (state_of s) (asks (list (resultant_in a b))) reply.old) result reply.new }
{
    let a = k.first;
    let b = k.second;
    if a.found.is_none() | b.found.is_none() {
        return Err(Refusal::Absent);
    }
    if a.group != b.group {
        return Err(Refusal::OtherType);
    }
    Ok(replied(relative_at(m, a.group, a.place, b.place, reply)))
}

// ERR?: the last error, which is then 0.
pub fn error_line(error: u8, reply: &mut [u8]) -> Step
    requires { buffer_limit ≤ length reply.old }
    ensures { (s : State) → s.error ≡ error → Takes s false (obeyed (state_of s) (asks last_error) reply.old) (Ok result) reply.new }
{
    let length = reply::last_error(error, reply);
    Step {
        deed: Deed::SetError(0),
        length,
    }
}
