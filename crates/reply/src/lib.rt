// The replies to the queries, written straight into the lent buffer. A list begins with the fixed systems' lines; each further line goes into what is
// left of the buffer.
#![tactic(auto)]

ghost use Rattle.std.specs.Prelude.{◌≡◌, ◌++◌, ◌-◌, ◌≤◌, length};
ghost use Rattle.model.specs.Ascii.{ascii};
ghost use Rattle.model.specs.Limits.{buffer_limit};
ghost use Rattle.model.specs.Stored.{memory_of, FineMemory};
ghost use Rattle.model.specs.Request.{systems_all, links};
ghost use Rattle.model.specs.Reply.{decimal, listed};
ghost use Rattle.print.specs.Over.{Wrote};
ghost use Rattle.reply.specs.Lines.{Replied, further};

use crate::line::{put_link, put_system};
use model::Memory;
use print::{put_byte, put_decimal, put_text};

pub mod texts; // texts.rt: types, groups and own values as text
pub mod line; // line.rt: the lines of the lists
pub mod enabled; // enabled.rt: KEN?
pub mod resultants; // resultants.rt: KLT?
pub mod relative; // relative.rt: KLT? A B

// The index of the system at a place; for place 0, no user system's, that of some system.
fn slot(place: u8) -> usize
    ensures { result ≡ place - 1 }
{
    place.saturating_sub(1) as usize
}

// ERR?
pub fn last_error(number: u8, reply: &mut [u8]) -> usize
    requires { buffer_limit ≤ length reply.old }
    ensures { Replied (decimal number ++ ascii "\n") reply.old reply.new result }
{
    let at = put_decimal(reply, 0, number as u64);
    put_byte(reply, at, b'\n')
}

// A further line of this text.
fn put_further(part: &mut [u8], text: &[u8]) -> usize
    requires { length (further text.now) ≤ length part.old }
    ensures { Wrote (further text.now) part.old 0 part.new result }
{
    let a = put_text(part, 0, b" \n");
    put_text(part, a, text)
}

// The fixed systems' lines, the second and third in what is left of the buffer.
fn put_fixed(reply: &mut [u8], a: &[u8], b: &[u8], c: &[u8]) -> usize
    requires { length (a.now ++ (further b.now ++ further c.now)) ≤ length reply.old }
    ensures { Wrote (a.now ++ (further b.now ++ further c.now)) reply.old 0 reply.new result }
{
    let i = put_text(reply, 0, a);
    let j = i + put_further(&mut reply[i..], b);
    j + put_further(&mut reply[j..], c)
}

// KLS?
pub fn systems(m: Memory, reply: &mut [u8]) -> usize
    requires fine_memory { FineMemory m }
    requires room { buffer_limit ≤ length reply.old }
    ensures { Replied (listed (memory_of m) systems_all) reply.old reply.new result }
{
    let mut at = put_fixed(
        reply,
        b"Name=ZERO Type=ZERO X=0.000000 Y=0.000000 Z=0.000000 U=0.000000 V=0.000000 W=0.000000",
        b"Name=PI_BASE Type=KSB(PI) X=0.000000 Y=0.000000 Z=0.000000 U=0.000000 V=0.000000 W=0.000000",
        b"Name=PI_LEVELLING Type=KLD(PI) X=0.000000 Y=0.000000 Z=0.000000 U=0.000000 V=0.000000 W=0.000000",
    );
    for s in &m.systems[..m.count as usize] {
        let part = &mut reply[at..];
        let a = put_text(part, 0, b" \n");
        at += put_system(part, a, *s);
    }
    put_byte(reply, at, b'\n')
}

// KLN?
pub fn links(m: Memory, reply: &mut [u8]) -> usize
    requires fine_memory { FineMemory m }
    requires room { buffer_limit ≤ length reply.old }
    ensures { Replied (listed (memory_of m) links) reply.old reply.new result }
{
    let mut at = put_fixed(
        reply,
        b"ZERO=ZERO",
        b"PI_BASE=HEXAPOD",
        b"PI_LEVELLING=HEXAPOD",
    );
    for s in &m.systems[..m.count as usize] {
        let pred = m.systems[slot(s.pred)];
        let part = &mut reply[at..];
        let a = put_text(part, 0, b" \n");
        at += put_link(part, a, *s, pred.name);
    }
    put_byte(reply, at, b'\n')
}
