// The machine's public calls. None asks anything of its caller: a state that is not well formed comes back as it is, refused with 1 (`in_use` gives none back). What each promises,
// an equation for all that it returns and the whole lent buffer, is what a history of stored states knows of it (Histories.antt of model).
#![tactic(auto)]

ghost use Rattle.std.specs.Prelude.{◌≡◌, Err};
ghost use Rattle.model.specs.Memory.{zero_position};
ghost use Rattle.model.specs.Machine.{start_factory};
ghost use Rattle.model.specs.Stored.{view_of, holds};
ghost use Rattle.model.specs.Histories.{LinePromise, RestartPromise, PositionPromise, WritePromise, ImagePromise, UsePromise};
ghost use Rattle.engine.specs.Answers.{returned};
ghost use Rattle.machine.specs.Calls.{returned_alone, started_with, usage_of};

use chains::links::Search;
use engine::answer::Stepped;
use facts::limits::BUFFER_LIMIT;
use facts::refusals::Refusal;
use memory::factory::factory_memory;
use memory::fine::state_fine;
use memory::stage::position_fine;
use memory::used::use_of;
use model::{Angles, Memory, Position, State, Vec3};

// What a call without a lent buffer gives: the next state, and whether the call was refused.
#[derive(Clone, Copy)]
pub struct Begun {
    pub state: State,
    pub outcome: Result<(), Refusal>,
}

// The position that is zero on every axis.
fn zero_position() -> Position
    ensures { result ≡ zero_position }
{
    Position {
        offset: Vec3 { x: 0, y: 0, z: 0 },
        angles: Angles { u: 0, v: 0, w: 0 },
    }
}

// A start with a memory: both memories, the platform at zero, level 0, no error.
fn started(m: Memory) -> State
    ensures { result ≡ started_with m }
{
    State {
        volatile: m,
        permanent: m,
        position: zero_position(),
        level: 0,
        error: 0,
    }
}

pub fn start_factory() -> State
    ensures { view_of result ≡ holds start_factory }
{
    started(factory_memory())
}

// Switching off and on.
pub fn restart(s: State) -> Begun
    ensures { RestartPromise s (returned_alone result) }
{
    if !state_fine(s) {
        return Begun {
            state: s,
            outcome: Err(Refusal::IllFormed),
        };
    }
    Begun {
        state: started(s.permanent),
        outcome: Ok(()),
    }
}

// The platform's position is told, in millionths: its offset in millimetres, its angles in degrees.
pub fn set_position(s: State, p: Position) -> Begun
    ensures { PositionPromise s p (returned_alone result) }
{
    let mut state = s;
    if !state_fine(s) {
        return Begun {
            state,
            outcome: Err(Refusal::IllFormed),
        };
    }
    if !position_fine(p) {
        return Begun {
            state,
            outcome: Err(Refusal::Beyond),
        };
    }
    state.position = p;
    Begun {
        state,
        outcome: Ok(()),
    }
}

// A refusal that leaves the state and the lent buffer as they are. (The calls without a lent buffer have another answer, and refuse in a line each.)
fn refusing(s: State, why: Refusal) -> Stepped
    ensures { result ≡ record { state = s; outcome = Err why } }
{
    let outcome = Err(why);
    Stepped { state: s, outcome }
}

// A command line, with a lent buffer for its reply.
pub fn line(s: State, line: &[u8], reply: &mut [u8]) -> Stepped
    ensures { LinePromise s line.now reply.old (returned result reply.new) }
{
    if state_fine(s) {
        return engine::line::obey(s, line, reply);
    }
    refusing(s, Refusal::IllFormed)
}

// The image of the permanent memory, into a lent buffer.
pub fn write_image(s: State, out: &mut [u8]) -> Stepped
    ensures { WritePromise s out.old (returned result out.new) }
{
    if !state_fine(s) {
        return refusing(s, Refusal::IllFormed);
    }
    if out.len() < BUFFER_LIMIT {
        return refusing(s, Refusal::Short);
    }
    Stepped {
        state: s,
        outcome: Ok(image::write(s.permanent, out)),
    }
}

// A start from bytes offered as an image: the state that they give, or with 14 the factory's.
pub fn start_image(bytes: &[u8]) -> Begun
    ensures { ImagePromise bytes.now (returned_alone result) }
{
    match image::read(bytes) {
        Ok(m) => Begun {
            state: started(m),
            outcome: Ok(()),
        },
        Err(why) => Begun {
            state: start_factory(),
            outcome: Err(why),
        },
    }
}

// Whether a name is in use in the volatile memory, and how many systems were looked at. Its bytes count as they are; a name that no system has is not in use.
pub fn in_use(s: State, name: &[u8]) -> Result<Search, Refusal>
    ensures { UsePromise s name.now (usage_of result) }
{
    if !state_fine(s) {
        return Err(Refusal::IllFormed);
    }
    Ok(use_of(s.volatile, name))
}
