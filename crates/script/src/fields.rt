// The fields of a line: the words that its spaces leave.
ghost use Rattle.std.specs.Prelude.{◌≡◌, [], ◌∷◌};
ghost use Rattle.model.specs.Lists.{same};
ghost use Rattle.text.specs.Cursor.{Within};
ghost use Rattle.script.specs.Fields.{bytes_at};

use text::words::Word;

// The bytes of a word.
pub fn bytes_of(text: &[u8], w: Word) -> &[u8]
    requires { Within text.now w }
    ensures { result.now ≡ bytes_at text.now w }
{
    let start = w.start;
    let end = w.end;
    &text[start..end]
}

// Whether a word is this one byte.
pub fn is_letter(word: &[u8], letter: u8) -> bool
    ensures { result ≡ same word.now (letter ∷ []) }
{
    matches!(word, [b] if *b == letter)
}
