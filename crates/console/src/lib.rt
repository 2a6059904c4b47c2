// ksrun at a terminal or in a pipe: every complete line is answered before more input is waited for, and behind the last answer comes the day's tally.

#![tactic(auto)]

ghost use Rattle.std.specs.Prelude.{◌≡◌, ◌≤◌, length, IfOk};
ghost use Rattle.model.specs.Limits.{buffer_limit};
ghost use Rattle.model.specs.Stored.{FineState};
ghost use Rattle.model.specs.Tally.{tally_text};
ghost use Rattle.tally.specs.Counts.{tally_of, longest_tally};
ghost use Rattle.session.specs.Feed.{ended, closing};
ghost use Rattle.session.specs.Blocks.{held_of};
ghost use Rattle.console.specs.Serve.{given, Serves};

use session::due::Manner;
use session::feed::{Session, begin, feed, finish};
use std::io::{Error, Print, Read};
use tally::text::put_tally;

// ksrun has no file, and explains nothing.
const PLAINLY: Manner = Manner {
    storing: false,
    explaining: false,
};

// Standard output gets the session's answers to a part of its input, and nothing else. (What each of these four functions requires is the promise of what is
// written; no code tells them apart.)
fn write_answers(rt: HostRuntime, s: Session, part: &[u8], answers: &[u8]) -> Result<(), Error>
    requires { answers.now ≡ (given s part.now).output }
{
    Print::write_all(&rt.stdout(), answers)
}

// The same for the end of the input, where what is held is a line.
fn write_last(rt: HostRuntime, s: Session, answers: &[u8]) -> Result<(), Error>
    requires { answers.now ≡ ended (held_of s) }
{
    Print::write_all(&rt.stdout(), answers)
}

// And for the tally behind it, in which that line is counted too.
fn write_tally(rt: HostRuntime, s: Session, text: &[u8]) -> Result<(), Error>
    requires { text.now ≡ tally_text (closing (tally_of s.tally) (held_of s)) }
{
    Print::write_all(&rt.stdout(), text)
}

// Where no more can be read: the tally of what was answered.
fn write_tally_until_now(rt: HostRuntime, s: Session, text: &[u8]) -> Result<(), Error>
    requires { text.now ≡ tally_text (tally_of s.tally) }
{
    Print::write_all(&rt.stdout(), text)
}

fn complain_of_output(rt: HostRuntime) {
    let _ = Print::write_all(&rt.stderr(), b"ksrun: standard output cannot be written\n");
}

// A block is fed until all of it is used; the answers are written as the buffer fills, and at the end. The session that it left, unless a write failed.
fn serve(rt: HostRuntime, s: Session, block: &[u8], out: &mut [u8]) -> Result<Session, Error>
    requires fine_state { FineState s.state }
    requires buffer_limit_in_bounds { buffer_limit ≤ length out.old }
    ensures { IfOk result (Serves s block.now) }
{
    let mut session = s;
    let mut at = 0;
    while at < block.len() {
        let fed = feed(PLAINLY, session, &block[at..], out);
        let end = at + fed.used;
        write_answers(rt, session, &block[at..end], &out[..fed.written])?;
        session = fed.session;
        at = end;
    }
    Ok(session)
}

// The end of the input: the answer to what is held, and the tally.
fn end(rt: HostRuntime, s: Session, out: &mut [u8]) -> Result<(), Error>
    requires fine_state { FineState s.state }
    requires buffer_limit_in_bounds { buffer_limit ≤ length out.old }
    requires longest_tally_in_bounds { longest_tally ≤ length out.old }
{
    let last = finish(PLAINLY, s, out);
    write_last(rt, s, &out[..last.written])?;
    let size = put_tally(out, 0, last.session.tally);
    write_tally(rt, s, &out[..size])
}

// The input cannot be read: what is held was no whole line, and is not answered.
fn break_off(rt: HostRuntime, s: Session, out: &mut [u8]) -> Result<(), Error>
    requires { longest_tally ≤ length out.old }
{
    let _ = Print::write_all(&rt.stderr(), b"ksrun: standard input cannot be read\n");
    let size = put_tally(out, 0, s.tally);
    write_tally_until_now(rt, s, &out[..size])
}

// Blocks are read and served to the end of the input. Nothing says that the input ends, so there are as many turns as no run uses up.
fn serve_all(rt: HostRuntime) -> Result<(), Error> {
    let mut input = io::large_buffer();
    let mut output = io::large_buffer();
    let mut session = begin();
    for _ in 0..u64::MAX {
        let Ok(n) = rt.stdin().read(&mut input) else {
            return break_off(rt, session, &mut output);
        };
        if n == 0 {
            break;
        }
        session = serve(rt, session, &input[..n], &mut output)?;
    }
    end(rt, session, &mut output)
}

// A read or a write that fails ends the session, with a word on standard error.
pub fn run(rt: HostRuntime) {
    if serve_all(rt).is_err() {
        complain_of_output(rt);
    }
}
