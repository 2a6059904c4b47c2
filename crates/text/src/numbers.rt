// A number, byte by byte: an optional minus, digits, and perhaps a point and decimals, into whole millionths.
ghost use Rattle.std.specs.Prelude.{◌≡◌};
ghost use Rattle.facts.specs.Refusals.{told_or};
ghost use Rattle.text.specs.Numbers.{part, first, stepped, Good, wrong, num_told};

use super::values::signed;
use facts::limits::{MILLION, WHOLE_DIGITS};

// The first decimal of one, in millionths.
const FIRST_DECIMAL: u64 = MILLION / 10;

// What the bytes of a number read so far are.
#[derive(Clone, Copy)]
pub enum Num {
    Start,
    Minus,
    // minus, digits, value in units
    Whole(bool, u8, u64),
    // minus, value in millionths
    Point(bool, u64),
    // minus, value in millionths, weight of the next decimal: 0 after the last
    Part(bool, u64, u64),
    Wrong,
}

fn first_digit(minus: bool, b: u8) -> Num
    ensures { result ≡ first minus b }
{
    if b.is_ascii_digit() {
        return Num::Whole(minus, 1, u64::from(b - b'0'));
    }
    Num::Wrong
}

fn whole_digit(minus: bool, k: u8, v: u64, b: u8) -> Num
    requires { Good (Num.Whole minus k v) }
    ensures { result ≡ stepped (Num.Whole minus k v) b }
{
    if b == b'.' {
        return Num::Point(minus, v * MILLION);
    }
    if b.is_ascii_digit() && k < WHOLE_DIGITS {
        return Num::Whole(minus, k + 1, 10 * v + u64::from(b - b'0'));
    }
    Num::Wrong
}

fn part_digit(minus: bool, v: u64, w: u64, b: u8) -> Num
    requires { Good (Num.Part minus v w) }
    ensures { result ≡ part minus v w b }
{
    if b.is_ascii_digit() {
        return Num::Part(minus, v + u64::from(b - b'0') * w, w / 10);
    }
    Num::Wrong
}

// One byte on.
pub(crate) fn step(n: Num, b: u8) -> Num
    requires { Good n }
    ensures { result ≡ stepped n b }
{
    match n {
        Num::Start => {
            if b == b'-' {
                Num::Minus
            } else {
                first_digit(false, b)
            }
        }
        Num::Minus => first_digit(true, b),
        Num::Whole(g, k, v) => whole_digit(g, k, v, b),
        Num::Point(g, v) => part_digit(g, v, FIRST_DECIMAL, b),
        Num::Part(g, v, w) => {
            if w == 0 {
                Num::Wrong
            } else {
                part_digit(g, v, w, b)
            }
        }
        Num::Wrong => Num::Wrong,
    }
}

// Whether no further bytes make a number of it.
pub(crate) fn is_wrong(n: Num) -> bool
    ensures { result ≡ wrong n }
{
    matches!(n, Num::Wrong)
}

// The number that the bytes are, in millionths, if they are one.
#[tactic(auto, unfolding(model::specs::Told::or_number))]
pub(crate) fn value_of(n: Num) -> Option<i64>
    requires { Good n }
    ensures { told_or 5 (λ z. z) result ≡ num_told n }
{
    match n {
        Num::Whole(g, _, v) => Some(signed(g, v * MILLION)),
        Num::Part(g, v, _) => Some(signed(g, v)),
        Num::Start | Num::Minus | Num::Point(_, _) | Num::Wrong => None,
    }
}
