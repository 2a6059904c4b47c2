// Texts and numbers written into a lent part, in place and in one pass. A writer takes the place where its text is to begin and returns the place
// after it, so that writers follow on one another; what they leave in the whole part is `Wrote` of specs/.
#![tactic(auto)]

ghost use Rattle.std.specs.Prelude.{◌∷◌, [], ◌+◌, ◌≤◌, ◌<◌, ◌^◌, length, nat_abs};
ghost use Rattle.model.specs.Limits.{name_limit};
ghost use Rattle.model.specs.Stored.{bytes_of};
ghost use Rattle.model.specs.Reply.{last_digits, decimal, value, degrees};
ghost use Rattle.print.specs.Over.{Wrote, millionths};

use facts::limits::MILLION;
use model::Name;
use signed::magnitude;

// The text as it is.
pub fn put_text(out: &mut [u8], at: usize, text: &[u8]) -> usize
    requires { at + length text.now ≤ length out.old }
    ensures { Wrote text.now out.old at out.new result }
{
    for (i, b) in text.iter().enumerate() {
        out[at + i] = *b;
    }
    at + text.len()
}

// The bytes of a stored name that count.
pub fn put_name(out: &mut [u8], at: usize, name: Name) -> usize
    requires { (name.len ≤ name_limit) × (at + length (bytes_of name) ≤ length out.old) }
    ensures { Wrote (bytes_of name) out.old at out.new result }
{
    let bytes = name.bytes;
    let n = name.len as usize;
    put_text(out, at, &bytes[..n])
}

pub fn put_byte(out: &mut [u8], at: usize, b: u8) -> usize
    requires { at < length out.old }
    ensures { Wrote (b ∷ []) out.old at out.new result }
{
    out[at] = b;
    at + 1
}

// The last digit, the last two, three, four, six: divisors are constants, so that no division is left in the machine code.
fn put_one(out: &mut [u8], at: usize, n: u64) -> usize
    requires { at + 1 ≤ length out.old }
    ensures { Wrote (last_digits 1 n) out.old at out.new result }
{
    put_byte(out, at, b'0' + (n % 10) as u8)
}

fn put_two(out: &mut [u8], at: usize, n: u64) -> usize
    requires { at + 2 ≤ length out.old }
    ensures { Wrote (last_digits 2 n) out.old at out.new result }
{
    let i = put_one(out, at, n / 10);
    put_one(out, i, n)
}

fn put_three(out: &mut [u8], at: usize, n: u64) -> usize
    requires { at + 3 ≤ length out.old }
    ensures { Wrote (last_digits 3 n) out.old at out.new result }
{
    let i = put_one(out, at, n / 100);
    put_two(out, i, n)
}

fn put_four(out: &mut [u8], at: usize, n: u64) -> usize
    requires { at + 4 ≤ length out.old }
    ensures { Wrote (last_digits 4 n) out.old at out.new result }
{
    let i = put_two(out, at, n / 100);
    put_two(out, i, n)
}

fn put_six(out: &mut [u8], at: usize, n: u64) -> usize
    requires { at + 6 ≤ length out.old }
    ensures { Wrote (last_digits 6 n) out.old at out.new result }
{
    let i = put_three(out, at, n / 1000);
    put_three(out, i, n)
}

// Without leading zeros: up to four digits.
fn put_short(out: &mut [u8], at: usize, n: u64) -> usize
    requires { (n < 10 ^ 4) × (at + length (decimal n) ≤ length out.old) }
    ensures { Wrote (decimal n) out.old at out.new result }
{
    if n < 10 {
        return put_one(out, at, n);
    }
    if n < 100 {
        return put_two(out, at, n);
    }
    if n < 1000 {
        return put_three(out, at, n);
    }
    put_four(out, at, n)
}

// Without leading zeros: all but the last four digits first, as many as there are.
fn put_long(out: &mut [u8], at: usize, n: u64) -> usize
    requires { at + length (decimal n) ≤ length out.old }
    ensures { Wrote (decimal n) out.old at out.new result }
{
    if n < 10000 {
        return put_short(out, at, n);
    }
    let i = put_long(out, at, n / 10000);
    put_four(out, i, n)
}

// Every whole number without leading zeros. Up to four digits are tried first, outside the recursion, so that they can be written where they are asked for.
pub fn put_decimal(out: &mut [u8], at: usize, n: u64) -> usize
    requires { at + length (decimal n) ≤ length out.old }
    ensures { Wrote (decimal n) out.old at out.new result }
{
    if n < 10000 {
        return put_short(out, at, n);
    }
    put_long(out, at, n)
}

// m millionths with six decimals.
fn put_millionths(out: &mut [u8], at: usize, m: u64) -> usize
    requires { at + length (millionths m) ≤ length out.old }
    ensures { Wrote (millionths m) out.old at out.new result }
{
    let i = put_decimal(out, at, m / MILLION);
    let j = put_byte(out, i, b'.');
    put_six(out, j, m % MILLION)
}

// z millionths with six decimals, and a minus only below zero.
pub fn put_value(out: &mut [u8], at: usize, z: i64) -> usize
    requires { (nat_abs z < 2 ^ 63) × (at + length (value z) ≤ length out.old) }
    ensures { Wrote (value z) out.old at out.new result }
{
    let m = magnitude(z);
    if z < 0 {
        let i = put_byte(out, at, b'-');
        return put_millionths(out, i, m);
    }
    put_millionths(out, at, m)
}

// Quarter turns, as degrees.
pub fn put_degrees(out: &mut [u8], at: usize, quarters: u8) -> usize
    requires { (quarters ≤ 3) × (at + length (degrees quarters) ≤ length out.old) }
    ensures { Wrote (degrees quarters) out.old at out.new result }
{
    match quarters {
        0 => put_text(out, at, b"0.000000"),
        1 => put_text(out, at, b"90.000000"),
        2 => put_text(out, at, b"180.000000"),
        _ => put_text(out, at, b"270.000000"),
    }
}
