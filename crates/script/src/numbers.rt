// Decimal whole numbers: digits up to a bound, one number with a sign, and a run of numbers to the end of a line.
ghost use Rattle.std.specs.Prelude.{◌≡◌, ◌^◌, ◌≤◌, length, pos, neg_ℤ};
ghost use Rattle.script.specs.Fields.{fields_from};
ghost use Rattle.script.specs.Told.{told};
ghost use Rattle.script.specs.Numbers.{whole_of, number_of, ReadsNumbers};

use crate::fields::bytes_of;
use text::words::next_word;

// The highest number of 64 bits, and how far the lowest lies below zero.
const HIGHEST: u64 = i64::MAX as u64;

const DEEPEST: u64 = HIGHEST + 1;

// One or more digits, and nothing else, that spell at most so much.
pub fn read_whole(word: &[u8], most: u64) -> Option<u64>
    ensures { told result ≡ whole_of most word.now }
{
    if word.is_empty() {
        return None;
    }
    let mut v: u64 = 0;
    for b in word {
        let digit = char::from(*b).to_digit(10)?;
        v = v.checked_mul(10)?.checked_add(u64::from(digit))?;
        if most < v {
            return None;
        }
    }
    Some(v)
}

// So far below zero.
fn below_zero(v: u64) -> i64
    requires { v ≤ 2 ^ 63 }
    ensures { result ≡ neg_ℤ (pos v) }
{
    v.wrapping_neg().cast_signed()
}

// A number of 64 bits: an optional minus, and digits.
pub fn read_number(word: &[u8]) -> Option<i64>
    ensures { told result ≡ number_of word.now }
{
    match word {
        [] => None,
        [b'-', digits @ ..] => Some(below_zero(read_whole(digits, DEEPEST)?)),
        digits => Some(read_whole(digits, HIGHEST)? as i64),
    }
}

// The words from a place to the line's end, all of them numbers, to the front of the lent run. More words than it has places are wrong too.
pub fn read_numbers(text: &[u8], from: usize, numbers: &mut [i64]) -> Option<usize>
    requires { from ≤ length text.now }
    ensures { ReadsNumbers (fields_from text.now from) (length numbers.old) result numbers.new }
{
    let mut at = from;
    for count in 0..numbers.len() {
        let w = next_word(text, at);
        if w.is_empty() {
            return Some(count);
        }
        numbers[count] = read_number(bytes_of(text, w))?;
        at = w.end;
    }
    let more = next_word(text, at);
    if more.is_empty() {
        Some(numbers.len())
    } else {
        None
    }
}
