// What a line gives: what it does and how long its reply is, or why it is refused.
ghost use Rattle.std.specs.Prelude.{◌≡◌};
ghost use Rattle.engine.specs.Taken.{step_of, deed_of};

use commands::changed::Deed;
use facts::refusals::Refusal;
use model::State;

// What an accepted line does, and how many bytes of the lent buffer were written.
#[derive(Clone, Copy)]
pub struct Step {
    pub deed: Deed,
    pub length: usize,
}

// The next state, and how many bytes of the lent buffer were written, or why none were.
#[derive(Clone, Copy)]
pub struct Stepped {
    pub state: State,
    pub outcome: Result<usize, Refusal>,
}

// A change has no reply. (However its refusal is told.)
pub fn silent<E>(decided: Result<Deed, E>) -> Result<Step, E>
    ensures { result ≡ step_of 0 decided }
{
    match decided {
        Ok(deed) => Ok(Step { deed, length: 0 }),
        Err(why) => Err(why),
    }
}

// A reply of so many bytes; the state stays.
pub fn replied(length: usize) -> Step
    ensures { result ≡ record { deed = Deed.Keep; length = length } }
{
    Step {
        deed: Deed::Keep,
        length,
    }
}

// What is done, without what was written.
pub fn deed_of(decided: Result<Step, Refusal>) -> Result<Deed, Refusal>
    ensures { result ≡ deed_of decided }
{
    decided.map(|step| step.deed)
}
