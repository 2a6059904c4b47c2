// How a session is run, and what is due behind the answers of its lines.
ghost use Rattle.std.specs.Prelude.{◌≡◌, ◌||◌, is_some};
ghost use Rattle.session.specs.Blocks.{due_with, due_by, nothing};

use commands::changed::{Deed, saves};
use engine::answer::Step;
use facts::refusals::Refusal;

// Whether an accepted WPA is to be stored in a file, and whether a refusal is to be explained: two answers, with no value beside them.
#[derive(Clone, Copy)]
pub struct Manner {
    pub storing: bool,
    pub explaining: bool,
}

// Whether the image of the permanent memory is to be stored, and the number whose reason is to be told.
#[derive(Clone, Copy)]
pub struct Due {
    pub store: bool,
    pub reason: Option<u8>,
}

pub fn nothing_due() -> Due
    ensures { result ≡ nothing }
{
    Due {
        store: false,
        reason: None,
    }
}

// What is due behind a line with this number, of which this deed was decided.
pub fn due_of(k: Manner, number: u8, deed: Deed) -> Due
    ensures { result ≡ due_with k number deed }
{
    Due {
        store: k.storing && saves(deed),
        reason: (k.explaining && number != 0).then_some(number),
    }
}

// What is due behind a line that was settled. What a refused line does is to set the last error.
pub fn due_behind(k: Manner, settled: Result<Step, Refusal>) -> Due
    ensures { result ≡ due_by k settled }
{
    match settled {
        Ok(step) => due_of(k, 0, step.deed),
        Err(why) => due_of(k, u8::from(why), Deed::SetError(u8::from(why))),
    }
}

// Something is due: no further line is answered before it is done.
pub fn is_due(d: Due) -> bool
    ensures { result ≡ d.store || is_some d.reason }
{
    d.store || d.reason.is_some()
}
