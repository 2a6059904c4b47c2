// A line of a script: which directive it is, its length or its numbers, and its bytes, decoded into a lent buffer.
ghost use Rattle.std.specs.Prelude.{◌≡◌, ℕ, ◌*◌, ◌≤◌, List, [], ◌∷◌, length};
ghost use Rattle.script.specs.Fields.{fields_from};
ghost use Rattle.script.specs.Told.{told};
ghost use Rattle.script.specs.Numbers.{numbers_of};
ghost use Rattle.script.specs.Directive.{longest_line, length_of, Spelled, position_order, one_field, two_fields, three_fields, few_fields, hex_field, Understood, order, hex_of};

use crate::fields::{bytes_of, is_letter};
use crate::hex::decode;
use crate::numbers::{read_numbers, read_whole};
use facts::limits::AXES;
use model::{Angles, Position, Vec3};
use text::words::next_word;

// A longer line is no directive, and no longer buffer is lent.
pub const LONGEST_LINE: usize = 262144;

pub const LONGEST_LENT: usize = 65536;

// The first count bytes of the lent buffer are the command line, the image or the name. (A directive that lent them itself would keep the room for lines
// lent, while the call that it orders wants the rest of that room.)
#[derive(Clone, Copy)]
pub enum Directive {
    Line { count: usize, length: usize },
    Restart,
    Write(usize),
    Image(usize),
    Factory,
    Use(usize),
    Position(Position),
}

// The length of a buffer to be lent.
fn read_length(word: &[u8]) -> Option<usize>
    ensures { told result ≡ length_of word.now }
{
    Some(read_whole(word, LONGEST_LENT as u64)? as usize)
}

pub fn read_bytes(field: &[u8], bytes: &mut [u8]) -> Option<usize>
    requires { length field.now ≤ 2 * length bytes.old }
    ensures { Spelled field.now bytes.old result bytes.new }
{
    if is_letter(field, b'-') {
        return Some(0);
    }
    decode(field, bytes)
}

fn one_field(w: &[u8]) -> Option<Directive>
    ensures { (b : List ℕ) → Understood (one_field w.now) [] b result b }
{
    match w {
        b"R" => Some(Directive::Restart),
        b"N" => Some(Directive::Factory),
        _ => None,
    }
}

fn two_fields(w: &[u8], v: &[u8], bytes: &mut [u8]) -> Option<Directive>
    requires { length v.now ≤ 2 * length bytes.old }
    ensures { Understood (two_fields w.now v.now) (hex_field (w.now ∷ v.now ∷ [])) bytes.old result bytes.new }
{
    match w {
        b"W" => Some(Directive::Write(read_length(v)?)),
        b"I" => Some(Directive::Image(read_bytes(v, bytes)?)),
        b"U" => Some(Directive::Use(read_bytes(v, bytes)?)),
        _ => None,
    }
}

fn three_fields(w: &[u8], h: &[u8], v: &[u8], bytes: &mut [u8]) -> Option<Directive>
    requires { length h.now ≤ 2 * length bytes.old }
    ensures { Understood (three_fields w.now h.now v.now) (hex_field (w.now ∷ h.now ∷ v.now ∷ [])) bytes.old result bytes.new }
{
    let b"L" = w else {
        return None;
    };
    let count = read_bytes(h, bytes)?;
    let length = read_length(v)?;
    Some(Directive::Line { count, length })
}

// Up to three fields: the first one, and those from a place on.
fn few_fields(first: &[u8], text: &[u8], from: usize, bytes: &mut [u8]) -> Option<Directive>
    requires { (from ≤ length text.now) × (length text.now ≤ 2 * length bytes.old) }
    ensures { Understood (few_fields first.now (fields_from text.now from)) (hex_field (first.now ∷ fields_from text.now from)) bytes.old result bytes.new }
{
    let v = next_word(text, from);
    if v.is_empty() {
        return one_field(first);
    }
    let second = bytes_of(text, v);
    let n = next_word(text, v.end);
    if n.is_empty() {
        return two_fields(first, second, bytes);
    }
    let third = bytes_of(text, n);
    let more = next_word(text, n.end);
    if !more.is_empty() {
        return None;
    }
    three_fields(first, second, third, bytes)
}

// The numbers of a position, from a place to the line's end.
fn read_position(text: &[u8], from: usize) -> Option<Directive>
    requires { from ≤ length text.now }
    ensures { (b : List ℕ) → Understood (position_order (numbers_of (fields_from text.now from))) [] b result b }
{
    let mut numbers = [0i64; AXES];
    let count = read_numbers(text, from, &mut numbers)?;
    if count != AXES {
        return None;
    }
    let [x, y, z, u, v, w] = numbers;
    let offset = Vec3 { x, y, z };
    let angles = Angles { u, v, w };
    Some(Directive::Position(Position { offset, angles }))
}

// A letter that asks for many numbers is taken first: the fields of the others are few.
pub fn parse(text: &[u8], bytes: &mut [u8]) -> Option<Directive>
    requires { longest_line ≤ 2 * length bytes.old }
    ensures { Understood (order text.now) (hex_of text.now) bytes.old result bytes.new }
{
    if LONGEST_LINE < text.len() {
        return None;
    }
    let w = next_word(text, 0);
    if w.is_empty() {
        return None;
    }
    let first = bytes_of(text, w);
    if is_letter(first, b'P') {
        return read_position(text, w.end);
    }
    few_fields(first, text, w.end, bytes)
}
