// What a lock file holds, `PID FD` and LF: the process that made it, and the number of the descriptor that it keeps open on it. Both stay texts, since they are
// only put into the name under which the system shows that descriptor, `/proc/PID/fd/FD`.
ghost use Rattle.std.specs.Prelude.{◌≡◌, ◌+◌, ◌≤◌, length, drop, IfSome};
ghost use Rattle.io.specs.Counts.{IsPrefixLen};
ghost use Rattle.print.specs.Over.{Wrote};
ghost use Rattle.store.specs.Mark.{longest_number, mark_text, number_text, shown_as, program_of, leading_digits, number_end, EndsAt, mark_of, Marked, Short};

use print::{put_decimal, put_text};

// The digits of the longest number, of 64 bits.
pub(crate) const DIGITS: usize = 20;

// Room for a mark, and for a name under /proc.
pub(crate) const ROOM: usize = 64;

// The digits of a number, or nothing where it is below zero: no process and no descriptor has such a number.
pub(crate) fn digits(n: i32, out: &mut [u8; DIGITS]) -> usize
    ensures wrote { Wrote (number_text n) out.old 0 out.new result }
    ensures prefix_len { IsPrefixLen result out.new }
    ensures upper_bound { result ≤ longest_number }
{
    match u64::try_from(n) {
        Ok(n) => put_decimal(out, 0, n),
        Err(_) => 0,
    }
}

pub(crate) fn put_mark(process: &[u8], number: &[u8], out: &mut [u8; ROOM]) -> usize
    requires { Short process.now number.now }
    ensures wrote { Wrote (mark_text process.now number.now) out.old 0 out.new result }
    ensures prefix_len { IsPrefixLen result out.new }
{
    let i = put_text(out, 0, process);
    let j = put_text(out, i, b" ");
    let k = put_text(out, j, number);
    put_text(out, k, b"\n")
}

// The name under which the system shows a descriptor of a process.
pub(crate) fn put_shown(process: &[u8], number: &[u8], out: &mut [u8; ROOM]) -> usize
    requires { Short process.now number.now }
    ensures wrote { Wrote (shown_as process.now number.now) out.old 0 out.new result }
    ensures prefix_len { IsPrefixLen result out.new }
{
    let i = put_text(out, 0, b"/proc/");
    let j = put_text(out, i, process);
    let k = put_text(out, j, b"/fd/");
    put_text(out, k, number)
}

// The name under which the system shows the program that a process runs.
pub(crate) fn put_program(process: &[u8], out: &mut [u8; ROOM]) -> usize
    requires { length process.now ≤ longest_number }
    ensures wrote { Wrote (program_of process.now) out.old 0 out.new result }
    ensures prefix_len { IsPrefixLen result out.new }
{
    let i = put_text(out, 0, b"/proc/");
    let j = put_text(out, i, process);
    put_text(out, j, b"/exe")
}

// How many digits a text begins with.
fn leading_digits(text: &[u8]) -> usize
    ensures value { result ≡ leading_digits text.now }
    ensures upper_bound { result ≤ length text.now }
{
    match text.iter().position(|b| !b.is_ascii_digit()) {
        Some(i) => i,
        None => text.len(),
    }
}

// The end of a number at a place, where it has 1 to 20 digits and this byte behind it.
fn number_end(text: &[u8], from: usize, stop: u8) -> Option<usize>
    requires { from ≤ length text.now }
    ensures value { result ≡ number_end text.now from stop }
    ensures ends_at { IfSome result (EndsAt text.now from) }
{
    let n = leading_digits(&text[from..]);
    if n == 0 || DIGITS < n {
        return None;
    }
    let end = from + n;
    if *text.get(end)? == stop {
        Some(end)
    } else {
        None
    }
}

// Where the digits of PID and of FD end, if it is a mark.
pub(crate) fn read_mark(text: &[u8]) -> Option<(usize, usize)>
    ensures value { result ≡ mark_of text.now }
    ensures marked { IfSome result (Marked text.now) }
{
    let a = number_end(text, 0, b' ')?;
    let b = number_end(text, a + 1, b'\n')?;
    if b + 1 == text.len() {
        Some((a, b))
    } else {
        None
    }
}
