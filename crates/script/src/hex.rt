// Bytes as pairs of hexadecimal digits, read and written in one pass.
ghost use Rattle.std.specs.Prelude.{◌≡◌, ◌+◌, ◌*◌, ◌<◌, ◌≤◌, length};
ghost use Rattle.print.specs.Over.{Wrote};
ghost use Rattle.script.specs.Hex.{digit_read, Decodes, glyph, hexed};

use text::words::between;

// What a digit counts for, in either case. (By ranges, and the pairs below by their index: `to_digit` and pieces of two took half as long again.)
#[tactic(auto, unfolding(crate::specs::Hex::digit_value))]
pub fn digit_value(b: u8) -> Option<u8>
    ensures { result ≡ digit_read b }
{
    if b.is_ascii_digit() {
        return Some(b - b'0');
    }
    if between(b'a', b'f', b) {
        return Some(b - b'a' + 10);
    }
    if between(b'A', b'F', b) {
        return Some(b - b'A' + 10);
    }
    None
}

// The bytes that a text spells, to the front of the lent buffer, up to the first pair that is none; and how many they are, if all of it is pairs.
pub fn decode(text: &[u8], out: &mut [u8]) -> Option<usize>
    requires { length text.now ≤ 2 * length out.old }
    ensures { Decodes text.now out.old result out.new }
{
    let pairs = text.len() / 2;
    for i in 0..pairs {
        out[i] = digit_value(text[2 * i])? * 16 + digit_value(text[2 * i + 1])?;
    }
    if 2 * pairs != text.len() {
        return None;
    }
    Some(pairs)
}

fn digit_of(d: u8) -> u8
    requires { d < 16 }
    ensures { result ≡ glyph d }
{
    if d < 10 { b'0' + d } else { b'a' - 10 + d }
}

// Bytes as hexadecimal digits, from a place on.
pub fn put_hex(out: &mut [u8], at: usize, bytes: &[u8]) -> usize
    requires { at + 2 * length bytes.now ≤ length out.old }
    ensures { Wrote (hexed bytes.now) out.old at out.new result }
{
    for (i, b) in bytes.iter().enumerate() {
        let k = at + 2 * i;
        out[k] = digit_of(*b / 16);
        out[k + 1] = digit_of(*b % 16);
    }
    at + 2 * bytes.len()
}
