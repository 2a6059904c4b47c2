// Complaints on standard error, one line each: `ksbench: PATH: text`. Where standard error cannot be written, nothing is left to be done.
// A path need not be text, so a line goes out as bytes, part by part.
use std::fmt::InlineText;
use std::io::{Error, Print};

// A complaint was made: the error of all that cannot be done and has said why. Only this module makes one.
#[derive(Clone, Copy)]
pub struct Complained {
    made: (),
}

// As it stands, a whole line or a part of one.
pub fn say(rt: HostRuntime, text: &[u8]) -> Complained {
    let _ = Print::write_all(&rt.stderr(), text);
    Complained { made: () }
}

// Who complains, and of which file.
fn begin(rt: HostRuntime, path: &[u8]) {
    say(rt, b"ksbench: ");
    say(rt, path);
    say(rt, b": ");
}

pub fn complain(rt: HostRuntime, path: &[u8], text: &[u8]) -> Complained {
    begin(rt, path);
    say(rt, text);
    say(rt, b"\n")
}

// An error's text without the number that std puts behind the system's words.
fn words(whole: &str) -> &str {
    match whole.split_once(" (os error ") {
        Some((words, _)) => words,
        None => whole,
    }
}

// A line that ends in the system's words for an error.
pub fn fail(rt: HostRuntime, text: &[u8], why: Error) -> Complained {
    let whole: InlineText<128> = InlineText::of(why);
    say(rt, text);
    say(rt, b": ");
    say(rt, words(whole.as_str()).as_bytes());
    say(rt, b"\n")
}

// With the system's words for the call that failed.
pub(crate) fn complain_why(rt: HostRuntime, path: &[u8], text: &[u8], why: Error) -> Complained {
    begin(rt, path);
    fail(rt, text, why)
}

// The file is in use by the process of this number.
pub(crate) fn complain_taken(rt: HostRuntime, path: &[u8], process: &[u8]) -> Complained {
    begin(rt, path);
    say(rt, b"another ksbench (process ");
    say(rt, process);
    say(rt, b") has it\n")
}

// Whether the file is in use cannot be told.
pub(crate) fn complain_unknown(rt: HostRuntime, path: &[u8]) -> Complained {
    begin(rt, path);
    say(
        rt,
        b"whether another ksbench has it cannot be told; if none runs, remove ",
    );
    say(rt, path);
    say(rt, b".lock\n")
}
