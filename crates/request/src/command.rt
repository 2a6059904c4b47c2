// The first word: which command it is, and how the arguments of that command are read.
ghost use Rattle.std.specs.Prelude.{◌≡◌, List, ◌++◌, ℕ};
ghost use Rattle.model.specs.Request.{read_by, edits, settings, queries, commands};
ghost use Rattle.text.specs.Cursor.{word_of, Within};
ghost use Rattle.request.specs.Forms.{asked_by, three_letters};

use super::Asked;
use model::Kind;
use text::words::{Word, is_word};

// How arguments are read, and what is asked if they have that form.
#[derive(Clone, Copy)]
pub enum Form {
    // a name and axis pairs
    Definition(Kind),
    OneName(Asked),
    TwoNames(Asked),
    // the word SKS
    Password(Asked),
    // no word
    Alone(Asked),
    // 0, or 1 ADVANCED
    Level,
    // none, one name or two
    Resultants,
}

// The words of four letters. (Tests in a row, here and below: a table of texts would be laid out on the stack at each call, docs/DECISIONS.md 5.)
fn query(line: &[u8], w: Word) -> Option<Form>
    requires { Within line.now w }
    ensures { (args : List (List ℕ)) → asked_by result args ≡ read_by queries (word_of line.now w) args }
{
    if is_word(line, w, b"KEN?") {
        return Some(Form::Alone(Asked::ListEnabled));
    }
    if is_word(line, w, b"KLS?") {
        return Some(Form::Alone(Asked::ListSystems));
    }
    if is_word(line, w, b"KLN?") {
        return Some(Form::Alone(Asked::ListLinks));
    }
    if is_word(line, w, b"KLT?") {
        return Some(Form::Resultants);
    }
    if is_word(line, w, b"ERR?") {
        return Some(Form::Alone(Asked::LastError));
    }
    None
}

// The level and the two memories.
fn setting(line: &[u8], w: Word) -> Option<Form>
    requires { Within line.now w }
    ensures { (args : List (List ℕ)) → asked_by result args ≡ read_by settings (word_of line.now w) args }
{
    if is_word(line, w, b"CCL") {
        return Some(Form::Level);
    }
    if is_word(line, w, b"WPA") {
        return Some(Form::Password(Asked::Save));
    }
    if is_word(line, w, b"RPA") {
        return Some(Form::Password(Asked::Restore));
    }
    if is_word(line, w, b"DPA") {
        return Some(Form::Password(Asked::Reset));
    }
    None
}

// Changes of systems that are there, and then the settings.
fn edit(line: &[u8], w: Word) -> Option<Form>
    requires { Within line.now w }
    ensures { (args : List (List ℕ)) → asked_by result args ≡ read_by (edits ++ settings) (word_of line.now w) args }
{
    if is_word(line, w, b"KLN") {
        return Some(Form::TwoNames(Asked::Link));
    }
    if is_word(line, w, b"KCP") {
        return Some(Form::TwoNames(Asked::Copy));
    }
    if is_word(line, w, b"KRM") {
        return Some(Form::OneName(Asked::Remove));
    }
    if is_word(line, w, b"KEN") {
        return Some(Form::OneName(Asked::Enable));
    }
    setting(line, w)
}

// Definitions, and then the other words of three letters.
fn definition(line: &[u8], w: Word) -> Option<Form>
    requires { Within line.now w }
    ensures { (args : List (List ℕ)) → asked_by result args ≡ read_by three_letters (word_of line.now w) args }
{
    if is_word(line, w, b"KSD") {
        return Some(Form::Definition(Kind::Ksd));
    }
    if is_word(line, w, b"KST") {
        return Some(Form::Definition(Kind::Kst));
    }
    if is_word(line, w, b"KSW") {
        return Some(Form::Definition(Kind::Ksw));
    }
    if is_word(line, w, b"KSB") {
        return Some(Form::Definition(Kind::Ksb));
    }
    if is_word(line, w, b"KLD") {
        return Some(Form::Definition(Kind::Kld));
    }
    if is_word(line, w, b"KSF") {
        return Some(Form::OneName(Asked::Locate));
    }
    edit(line, w)
}

// By the word's length first: queries have four letters, all other commands three.
pub fn form_of(line: &[u8], w: Word) -> Option<Form>
    requires { Within line.now w }
    ensures { (args : List (List ℕ)) → asked_by result args ≡ read_by commands (word_of line.now w) args }
{
    let n = w.end - w.start;
    if n == 4 {
        return query(line, w);
    }
    if n == 3 {
        return definition(line, w);
    }
    None
}
