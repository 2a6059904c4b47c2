// The words behind the command, read in the form that it asks for.
ghost use Rattle.std.specs.Prelude.{◌≡◌, ◌≤◌, ◌<◌, cond, [], ◌∷◌, length};
ghost use Rattle.model.specs.Lists.{none?};
ghost use Rattle.model.specs.Request.{malformed, definition, same_words, one_name, two_names, level_words, resultant_words};
ghost use Rattle.model.specs.Stored.{empty_name};
ghost use Rattle.text.specs.Cursor.{words_from};
ghost use Rattle.request.specs.Asked.{Says, asking, named};
ghost use Rattle.request.specs.Forms.{read_as};

use super::command::Form;
use super::{Asked, Request};
use facts::names::no_name;
use facts::refusals::Refusal;
use model::{Kind, Name, Turns, Vec3};
use text::names::read_name;
use text::pairs::read_pairs;
use text::words::{is_word, next_word};

fn ask(asked: Asked, first: Name, second: Name) -> Request
    ensures { result ≡ asking asked first second }
{
    Request {
        asked,
        first,
        second,
        offset: Vec3 { x: 0, y: 0, z: 0 },
        turns: Turns { u: 0, v: 0, w: 0 },
    }
}

fn plain(asked: Asked) -> Request
    ensures { result ≡ asking asked empty_name empty_name }
{
    ask(asked, no_name(), no_name())
}

// Whether no word is left.
fn ended(line: &[u8], at: usize) -> bool
    requires { at ≤ length line.now }
    ensures { result ≡ none? (words_from line.now at) }
{
    next_word(line, at).is_empty()
}

// Whether just this word is left.
fn only_word(line: &[u8], at: usize, text: &[u8]) -> bool
    requires { (at ≤ length line.now) × (0 < length text.now) }
    ensures { result ≡ same_words (text.now ∷ []) (words_from line.now at) }
{
    let w = next_word(line, at);
    is_word(line, w, text) && ended(line, w.end)
}

fn one_name(line: &[u8], at: usize, asked: Asked) -> Result<Request, Refusal>
    requires { at ≤ length line.now }
    ensures { Says result (one_name (λ a. named asked a []) (words_from line.now at)) }
{
    let w = next_word(line, at);
    let first = read_name(line, w)?;
    if !ended(line, w.end) {
        return Err(Refusal::Malformed);
    }
    Ok(ask(asked, first, no_name()))
}

fn two_names(line: &[u8], at: usize, asked: Asked) -> Result<Request, Refusal>
    requires { at ≤ length line.now }
    ensures { Says result (two_names (named asked) (words_from line.now at)) }
{
    let v = next_word(line, at);
    let first = read_name(line, v)?;
    let w = next_word(line, v.end);
    let second = read_name(line, w)?;
    let last = w.end;
    if !ended(line, last) {
        return Err(Refusal::Malformed);
    }
    Ok(ask(asked, first, second))
}

// What is asked, if the words are those that it needs. (`then_some` and `ok_or` say no more.)
fn if_fine(fine: bool, asked: Asked) -> Result<Request, Refusal>
    ensures { Says result (cond fine (named asked [] []) malformed) }
{
    if fine {
        Ok(plain(asked))
    } else {
        Err(Refusal::Malformed)
    }
}

fn level(line: &[u8], at: usize) -> Result<Request, Refusal>
    requires { at ≤ length line.now }
    ensures { Says result (level_words (words_from line.now at)) }
{
    let w = next_word(line, at);
    let end = w.end;
    if is_word(line, w, b"0") {
        return if_fine(ended(line, end), Asked::SetLevel(0));
    }
    if is_word(line, w, b"1") {
        return if_fine(only_word(line, end, b"ADVANCED"), Asked::SetLevel(1));
    }
    Err(Refusal::Malformed)
}

// By how many words there are: none, one, or more.
fn resultants(line: &[u8], at: usize) -> Result<Request, Refusal>
    requires { at ≤ length line.now }
    ensures { Says result (resultant_words (words_from line.now at)) }
{
    let w = next_word(line, at);
    if w.is_empty() {
        return Ok(plain(Asked::ListResultants));
    }
    if ended(line, w.end) {
        return one_name(line, at, Asked::ListResultant);
    }
    two_names(line, at, Asked::ListRelative)
}

// A name, then axis pairs: 5 for the form of the whole line before 6 for a value.
fn defining(line: &[u8], at: usize, kind: Kind) -> Result<Request, Refusal>
    requires { at ≤ length line.now }
    ensures { Says result (definition kind (words_from line.now at)) }
{
    let w = next_word(line, at);
    let first = read_name(line, w)?;
    let (offset, turns) = read_pairs(line, w.end, kind)?;
    Ok(Request {
        asked: Asked::Define(kind),
        first,
        second: no_name(),
        offset,
        turns,
    })
}

// The words from a place on, in a command's form.
pub fn arguments(line: &[u8], at: usize, form: Form) -> Result<Request, Refusal>
    requires { at ≤ length line.now }
    ensures { Says result (read_as form (words_from line.now at)) }
{
    match form {
        Form::Definition(kind) => defining(line, at, kind),
        Form::OneName(asked) => one_name(line, at, asked),
        Form::TwoNames(asked) => two_names(line, at, asked),
        Form::Password(asked) => if_fine(only_word(line, at, b"SKS"), asked),
        Form::Alone(asked) => if_fine(ended(line, at), asked),
        Form::Level => level(line, at),
        Form::Resultants => resultants(line, at),
    }
}
