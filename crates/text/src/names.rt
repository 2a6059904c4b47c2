// Names: read from a word, and compared.
ghost use Rattle.std.specs.Prelude.{◌≡◌};
ghost use Rattle.model.specs.Lists.{same};
ghost use Rattle.model.specs.Words as model;
ghost use Rattle.text.specs.Cursor.{word_of, Within};
ghost use Rattle.text.specs.Names.{Reads};

use super::words::{Word, upper};
use facts::limits::NAME_LIMIT;
use facts::refusals::Refusal;
use model::Name;

// Capitals, digits and underscores.
pub fn name_byte(b: u8) -> bool
    ensures { result ≡ model.name_byte b }
{
    b.is_ascii_uppercase() | b.is_ascii_digit() | (b == b'_')
}

// The name that a word spells, if it is a legal one. Bytes past the last one are 0.
pub fn read_name(line: &[u8], w: Word) -> Result<Name, Refusal>
    requires { Within line.now w }
    ensures { Reads (word_of line.now w) result }
{
    let word = &line[w.start..w.end];
    let n = word.len();
    if n == 0 || NAME_LIMIT < n {
        return Err(Refusal::Malformed);
    }
    if !upper(word[0]).is_ascii_uppercase() {
        return Err(Refusal::Malformed);
    }
    let mut bytes = [0u8; NAME_LIMIT];
    for (i, &typed) in word.iter().enumerate() {
        let b = upper(typed);
        if !name_byte(b) {
            return Err(Refusal::Malformed);
        }
        bytes[i] = b;
    }
    Ok(Name {
        bytes,
        len: n as u8,
    })
}

// From the last byte on: names that differ differ mostly at their end.
pub fn same_bytes(a: &[u8], b: &[u8]) -> bool
    ensures { result ≡ same a.now b.now }
{
    a.len() == b.len() && a.iter().rev().zip(b.iter().rev()).all(|(x, y)| *x == *y)
}
