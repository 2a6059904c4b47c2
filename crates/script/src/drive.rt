// ksscript at a terminal or in a pipe: every complete line is answered before more input is waited for.
ghost use Rattle.std.specs.Prelude.{◌≡◌, suc, ◌≤◌, length, IfOk};
ghost use Rattle.lines.specs.Feed.{ended};
ghost use Rattle.script.specs.Directive.{longest_line};
ghost use Rattle.script.specs.Run.{answering, held_of, given, Serves};

use crate::cut::keep;
use crate::feed::{Script, begin, feed, finish};
use crate::parse::LONGEST_LINE;
use crate::rooms::Rooms;
use std::io::{Print, Read};

// What ends a run before its input does.
#[derive(Clone, Copy)]
enum Trouble {
    Input,
    Output,
}

fn words_of(what: Trouble) -> &'static [u8] {
    match what {
        Trouble::Input => b"ksscript: standard input cannot be read\n",
        Trouble::Output => b"ksscript: standard output cannot be written\n",
    }
}

// Standard output gets what the script answers to a part of its input, and nothing else.
fn write_answers(
    rt: HostRuntime,
    s: Script,
    held: &[u8],
    part: &[u8],
    answers: &[u8],
) -> Result<(), Trouble>
    requires { answers.now ≡ (given s held.now part.now).output }
{
    Print::write_all(&rt.stdout(), answers).map_err(|_| Trouble::Output)
}

// The same for the end of the input.
fn write_last(rt: HostRuntime, s: Script, held: &[u8], answers: &[u8]) -> Result<(), Trouble>
    requires { answers.now ≡ ended answering (held_of s held.now) }
{
    Print::write_all(&rt.stdout(), answers).map_err(|_| Trouble::Output)
}

// A block is fed until all of it is used; the answers are written as the buffer fills, and at the end. What is then held goes from line to held.
fn serve(
    rt: HostRuntime,
    s: Script,
    block: &[u8],
    held: &mut [u8],
    line: &mut [u8],
    rooms: &mut Rooms,
) -> Result<Script, Trouble>
    requires line_long { length line.old ≡ suc longest_line }
    requires held_in_bounds { (s.held ≤ length held.old) × (length held.old ≡ length line.old) }
    ensures { IfOk result (Serves s held.old block.now held.new) }
{
    let mut script = s;
    let mut at = 0;
    // no `for`: feed says how far it came, since the room for answers may be full before the block ends
    while at < block.len() {
        let f = feed(script, held, &block[at..], line, rooms);
        let end = at + f.used;
        write_answers(rt, script, held, &block[at..end], &rooms.out[..f.written])?;
        keep(held, 0, &line[..f.script.held]);
        script = f.script;
        at = end;
    }
    Ok(script)
}

// Room for the longest line and one byte more, so that a longer one shows; the bytes that it spells, and some answers, fit too.
fn line_buffer() -> [u8; LONGEST_LINE + 1]
    ensures { suc longest_line ≡ length result }
{
    [0; LONGEST_LINE + 1]
}

// Blocks are read and served to the end of the input. Nothing says that the input ends, so the turns are counted, up to a number that no run uses up.
fn answer_all(rt: HostRuntime) -> Result<(), Trouble> {
    let mut block = io::large_buffer();
    let mut held = line_buffer();
    let mut line = line_buffer();
    let mut bytes = line_buffer();
    let mut reply = io::large_buffer();
    let mut out = line_buffer();
    let mut rooms = Rooms {
        bytes: &mut bytes,
        reply: &mut reply,
        out: &mut out,
    };
    let mut script = begin();
    for _ in 0..u64::MAX {
        let Ok(n) = rt.stdin().read(&mut block) else {
            return Err(Trouble::Input);
        };
        if n == 0 {
            break;
        }
        script = serve(rt, script, &block[..n], &mut held, &mut line, &mut rooms)?;
    }
    let n = finish(script, &held, &mut rooms);
    let Rooms { out, .. } = rooms;
    write_last(rt, script, &held, &out[..n])
}

// A read or a write that fails ends the run, with a word on standard error.
pub fn run(rt: HostRuntime) {
    if let Err(what) = answer_all(rt) {
        let _ = Print::write_all(&rt.stderr(), words_of(what));
    }
}
