// Words of a line by a cursor: where the next one starts and ends. Nothing is copied.
ghost use Rattle.std.specs.Prelude.{◌≡◌, ◌+◌, ◌≤◌, eqb, length, drop};
ghost use Rattle.model.specs.Lists as lists;
ghost use Rattle.model.specs.Lists.{same};
ghost use Rattle.model.specs.Words as model;
ghost use Rattle.text.specs.Cursor.{lead, next_word, word_of, Within};

// The bytes of a word: from start to before end. None is left where the two are equal.
#[derive(Clone, Copy)]
pub struct Word {
    pub start: usize,
    pub end: usize,
}

impl Word {
    pub fn is_empty(self) -> bool
        ensures { result ≡ eqb self.start self.end }
    {
        self.start == self.end
    }
}

pub fn between(low: u8, high: u8, b: u8) -> bool
    ensures { result ≡ lists.between low high b }
{
    low <= b && b <= high
}

// Lower case letters count as upper case.
pub fn upper(b: u8) -> u8
    ensures { result ≡ model.upper b }
{
    b.to_ascii_uppercase()
}

// Past the spaces at a place, or past the other bytes. (The flag switches no step: it is what each byte's test must answer.)
pub(crate) fn past(line: &[u8], at: usize, spaces: bool) -> usize
    requires { at ≤ length line.now }
    ensures { result ≡ at + lead spaces (drop at line.now) }
{
    let rest = &line[at..];
    at + rest
        .iter()
        .position(|&b| (b == b' ') != spaces)
        .unwrap_or(rest.len())
}

pub fn next_word(line: &[u8], at: usize) -> Word
    requires { at ≤ length line.now }
    ensures { result ≡ next_word line.now at }
{
    let start = past(line, at, true);
    let end = past(line, start, false);
    Word { start, end }
}

// Whether a word, in capitals, is this text: for commands, axes and all other fixed words.
pub fn is_word(line: &[u8], w: Word, text: &[u8]) -> bool
    requires { Within line.now w }
    ensures { result ≡ same (word_of line.now w) text.now }
{
    let word = &line[w.start..w.end];
    word.len() == text.len() && word.iter().zip(text).all(|(&a, &b)| upper(a) == b)
}
