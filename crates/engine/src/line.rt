// A line obeyed: its buffer and bytes judged, then read, and what it asks decided. The memory is lent by value, and only looked at.
ghost use Rattle.std.specs.Prelude.{◌≡◌, true, ◌≤◌, length};
ghost use Rattle.model.specs.Limits.{name_limit, buffer_limit};
ghost use Rattle.model.specs.Request.{reading, asks};
ghost use Rattle.model.specs.Stage.{position_fine};
ghost use Rattle.model.specs.Machine.{stepped};
ghost use Rattle.model.specs.Checklist.{asks_to_save};
ghost use Rattle.model.specs.Stored.{FineMemory, FineState, bytes_of, memory_of, of_outcome, state_of};
ghost use Rattle.request.specs.Asked.{request_of};
ghost use Rattle.commands.specs.Obeyed.{obeyed};
ghost use Rattle.commands.specs.Subject.{Tells};
ghost use Rattle.engine.specs.Answers.{answered_of};
ghost use Rattle.engine.specs.Taken.{Takes, settled_by, length_of};

use crate::answer::{Step, Stepped, deed_of, silent};
use crate::lists::{
    enabled_line, error_line, links_line, relative_line, resultant_line, resultants_line,
    systems_line,
};
use commands::changed::applied;
use commands::subject::{Subject, look};
use commands::systems::{copy, define, enable, link, locate, remove};
use commands::whole::{reset, restore, save, set_level};
use facts::limits::BUFFER_LIMIT;
use facts::refusals::Refusal;
use model::{Memory, Name, Position, State};
use request::{Asked, Request};

// What was read is judged: what it does, or why it is refused.
fn carry_out(
    m: Memory,
    p: Position,
    level: u8,
    error: u8,
    q: Request,
    reply: &mut [u8],
) -> Result<Step, Refusal>
    requires fine_memory { FineMemory m }
    requires p_fine { position_fine p ≡ true }
    requires names_fit { (q.first.len ≤ name_limit) × (q.second.len ≤ name_limit) }
    requires room { buffer_limit ≤ length reply.old }
    ensures { (s : State) → s.volatile ≡ m → s.position ≡ p → s.level ≡ level → s.error ≡ error → Takes s (asks_to_save (asks (request_of q))) (obeyed (state_of s) (asks (request_of q)) reply.old) result reply.new }
{
    let a = q.first;
    let b = q.second;
    match q.asked {
        Asked::Define(kind) => silent(define(look(m, a, b), level, kind, a, q.offset, q.turns)),
        Asked::Locate => silent(locate(m, p, look(m, a, b), a)),
        Asked::Link => silent(link(look(m, a, b), level)),
        Asked::Copy => silent(copy(look(m, a, b), level, b)),
        Asked::Remove => silent(remove(look(m, a, b), level)),
        Asked::Enable => silent(enable(subject_of(m, a, b), m.enabled, level)),
        Asked::SetLevel(n) => silent(set_level(n)),
        Asked::Save => silent(save()),
        Asked::Restore => silent(restore(level)),
        Asked::Reset => silent(reset(level)),
        Asked::ListEnabled => Ok(enabled_line(m, reply)),
        Asked::ListSystems => Ok(systems_line(m, reply)),
        Asked::ListLinks => Ok(links_line(m, reply)),
        Asked::ListResultants => Ok(resultants_line(m, reply)),
        Asked::ListResultant => resultant_line(m, subject_of(m, a, b), reply),
        Asked::ListRelative => relative_line(m, look(m, a, b), reply),
        Asked::LastError => Ok(error_line(error, reply)),
    }
}

// What the first name means.
fn subject_of(m: Memory, a: Name, b: Name) -> Subject
    requires { FineMemory m }
    ensures { Tells (memory_of m) (bytes_of a) result }
{
    look(m, a, b).first
}

// What a line does, or why it is refused, in any well-formed state of this volatile memory, position, level and last error. (Only KSF asks for the position.)
pub fn decide(
    m: Memory,
    p: Position,
    level: u8,
    error: u8,
    line: &[u8],
    reply: &mut [u8],
) -> Result<Step, Refusal>
    requires fine_memory { FineMemory m }
    requires p_fine { position_fine p ≡ true }
    ensures { (s : State) → s.volatile ≡ m → s.position ≡ p → s.level ≡ level → s.error ≡ error → FineState s → Takes s (asks_to_save (reading line.now)) (stepped (state_of s) line.now reply.old) result reply.new }
{
    if reply.len() < BUFFER_LIMIT {
        return Err(Refusal::Short);
    }
    if request::printable::unreadable(line) {
        return Err(Refusal::Unreadable);
    }
    let q = request::read(line)?;
    carry_out(m, p, level, error, q, reply)
}

// What was decided, once the permanent memory has been looked at: a removal is refused where the next start needs the name.
pub fn settled(saved: Memory, decided: Result<Step, Refusal>) -> Result<Step, Refusal>
    ensures { result ≡ settled_by (memory_of saved) decided }
{
    let step = decided?;
    commands::changed::settled(saved, step.deed)?;
    decided
}

// How much was written.
fn length_of(decided: Result<Step, Refusal>) -> Result<usize, Refusal>
    ensures { result ≡ length_of decided }
{
    decided.map(|step| step.length)
}

// A line in a well-formed state.
pub fn obey(s: State, line: &[u8], reply: &mut [u8]) -> Stepped
    requires { FineState s }
    ensures { answered_of result reply.new ≡ of_outcome (stepped (state_of s) line.now reply.old) }
{
    let decided = decide(s.volatile, s.position, s.level, s.error, line, reply);
    let done = settled(s.permanent, decided);
    Stepped {
        state: applied(s, deed_of(done)),
        outcome: length_of(done),
    }
}
