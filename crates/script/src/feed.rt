// A block of a script: its lines are obeyed one after the other, and their answers stand in a lent buffer.
ghost use Rattle.std.specs.Prelude.{◌≡◌, ◌≤◌, suc, [], length, take};
ghost use Rattle.script.specs.Directive.{longest_line};
ghost use Rattle.script.specs.Run.{place_of, Begins, Feeds, Ends};

use crate::cut::{join, keep};
use crate::obey::obey;
use crate::parse::LONGEST_LENT;
use crate::rooms::Rooms;
use lines::line_end;
use model::State;

// What stands beside a call's bytes: a number of up to three digits, a space and LF.
const BESIDE: usize = 5;

// Two digits for each byte of the longest lent buffer, and what stands beside them.
const LONGEST_ANSWER: usize = 2 * LONGEST_LENT + BESIDE;

// Between two lines: the state, the number of the next line, and how many bytes of an unfinished line are held.
#[derive(Clone, Copy)]
pub struct Script {
    pub state: State,
    pub line: u64,
    pub held: usize,
}

// What a block left: the script, how many of its bytes were used, and how many bytes of answers were written.
#[derive(Clone, Copy)]
pub struct Fed {
    pub script: Script,
    pub used: usize,
    pub written: usize,
}

// A script begins at the factory, with line 1 and nothing held.
pub fn begin() -> Script
    ensures { Begins result }
{
    let state = machine::start_factory();
    Script {
        state,
        line: 1,
        held: 0,
    }
}

// Whole lines from the start of a block on, while there is room for an answer. What is left without an LF is held in the buffer line.
fn whole_lines(s: Script, block: &[u8], line: &mut [u8], rooms: &mut Rooms) -> Fed
    requires { length line.old ≡ suc longest_line }
    ensures { Feeds (place_of s) [] block.now rooms.old.out.now rooms.new.out.now line.new result }
{
    let mut state = s.state;
    let mut number = s.line;
    let mut at = 0;
    let mut written = 0;
    // no `for`: a line begins where the one before ended, and room for an answer may be left or not
    while LONGEST_ANSWER <= rooms.out.len() - written {
        let end = line_end(block, at);
        if end == block.len() {
            let held = keep(line, 0, &block[at..]);
            let script = Script {
                state,
                line: number,
                held,
            };
            return Fed {
                script,
                used: end,
                written,
            };
        }
        let o = obey(state, &block[at..end], number, rooms, written);
        state = o.state;
        number = number.wrapping_add(1);
        at = end + 1;
        written = o.end;
    }
    let script = Script {
        state,
        line: number,
        held: 0,
    };
    Fed {
        script,
        used: at,
        written,
    }
}

// A block: first the line that was held, if there is one, then whole lines.
pub fn feed(s: Script, held: &[u8], block: &[u8], line: &mut [u8], rooms: &mut Rooms) -> Fed
    requires line_long { length line.old ≡ suc longest_line }
    requires held_in_bounds { (s.held ≤ length held.now) × (length held.now ≤ length line.old) }
    ensures { Feeds (place_of s) (take s.held held.now) block.now rooms.old.out.now rooms.new.out.now line.new result }
{
    let count = s.held;
    if count == 0 {
        return whole_lines(s, block, line, rooms);
    }
    let end = line_end(block, 0);
    let n = join(line, &held[..count], &block[..end]);
    let number = s.line;
    let state = s.state;
    if end == block.len() {
        let script = Script {
            state,
            line: number,
            held: n,
        };
        return Fed {
            script,
            used: end,
            written: 0,
        };
    }
    let o = obey(state, &line[..n], number, rooms, 0);
    let after = o.state;
    let script = Script {
        state: after,
        line: number.wrapping_add(1),
        held: 0,
    };
    Fed {
        script,
        used: end + 1,
        written: o.end,
    }
}

// The end of the input: what is held is one more line, if there is any.
pub fn finish(s: Script, held: &[u8], rooms: &mut Rooms) -> usize
    requires { s.held ≤ length held.now }
    ensures { Ends s held.now rooms.old.out.now rooms.new.out.now result }
{
    let n = s.held;
    if n == 0 {
        return 0;
    }
    let state = s.state;
    let o = obey(state, &held[..n], s.line, rooms, 0);
    o.end
}
