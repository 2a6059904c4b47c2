// What a line asks for.
#![tactic(auto)]

mod arguments;
mod command;
pub mod printable;

ghost use Rattle.model.specs.Request.{reading};
ghost use Rattle.request.specs.Asked.{Says};

use arguments::arguments;
use command::form_of;
use facts::refusals::Refusal;
use model::{Kind, Name, Turns, Vec3};
use text::words::next_word;

#[derive(Clone, Copy)]
pub enum Asked {
    Define(Kind),
    // KSF: no pose is typed, since the stage's own is taken
    Locate,
    Link,
    Copy,
    Remove,
    Enable,
    SetLevel(u8),
    Save,
    Restore,
    Reset,
    ListEnabled,
    ListSystems,
    ListLinks,
    ListResultants,
    ListResultant,
    ListRelative,
    LastError,
}

// What is asked, with its names and values. Those that it has no use for are empty and 0.
#[derive(Clone, Copy)]
pub struct Request {
    pub asked: Asked,
    pub first: Name,
    pub second: Name,
    pub offset: Vec3,
    pub turns: Turns,
}

// The request of a line of any bytes, by one cursor from word to word. A line asks for nothing with no command, with arguments of another form, or with a
// value out of range.
pub fn read(line: &[u8]) -> Result<Request, Refusal>
    ensures { Says result (reading line.now) }
{
    let w = next_word(line, 0);
    let form = form_of(line, w).ok_or(Refusal::Unknown)?;
    arguments(line, w.end, form)
}
