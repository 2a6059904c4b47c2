// A block of input, fed to the machine line by line.
ghost use Rattle.std.specs.Prelude.{◌≡◌, ◌≤◌, length};
ghost use Rattle.model.specs.Limits.{buffer_limit};
ghost use Rattle.model.specs.Stored.{FineState};
ghost use Rattle.model.specs.Tally.{empty_tally};
ghost use Rattle.tally.specs.Counts.{tally_of};
ghost use Rattle.session.specs.Blocks.{Begins, Answers, Feeds, Ends, Reasoned};

use crate::cut::{Kept, keep, nothing_held};
use crate::due::{Due, Manner, due_behind, nothing_due};
use crate::run::{run_lines, say_settled};
use commands::changed::applied;
use engine::answer::deed_of;
use engine::line::{decide, settled};
use facts::refusals::number_told;
use lines::line_end;
use model::State;
use tally::Tally;
use tally::counting::{count, empty};

// Between two blocks: the state, the tally of the lines until now, and the bytes of a line that no block has ended yet.
#[derive(Clone, Copy)]
pub struct Session {
    pub state: State,
    pub tally: Tally,
    pub held: Kept,
}

// What feeding left: the session, how many bytes of the block were used (at the end of the input there is no block), how many bytes of answers were written,
// and what is due behind the last of them.
#[derive(Clone, Copy)]
pub struct Fed {
    pub session: Session,
    pub used: usize,
    pub written: usize,
    pub due: Due,
}

// A session begins with nothing counted and nothing held.
pub fn begin_from(state: State) -> Session
    ensures { (result.state ≡ state) × (tally_of result.tally ≡ empty_tally) × (result.held.count ≡ 0) }
{
    Session {
        state,
        tally: empty(),
        held: nothing_held(),
    }
}

// ksrun's begins at the factory.
pub fn begin() -> Session
    ensures { Begins result }
{
    begin_from(machine::start_factory())
}

// The reply as it is, or E and the number; then what was decided is done.
fn answer_line(k: Manner, s: Session, line: &[u8], out: &mut [u8]) -> Fed
    requires fine_state { FineState s.state }
    requires buffer_limit_in_bounds { buffer_limit ≤ length out.old }
    ensures answers { Answers k s line.now out.old out.new result }
    ensures reasoned { Reasoned result.due }
{
    let before = s.state;
    let decided = decide(
        before.volatile,
        before.position,
        before.level,
        before.error,
        line,
        out,
    );
    let done = settled(before.permanent, decided);
    let written = say_settled(done, out);
    let state = applied(before, deed_of(done));
    let tally = count(s.tally, number_told(done));
    Fed {
        session: Session {
            state,
            tally,
            held: nothing_held(),
        },
        used: 0,
        written,
        due: due_behind(k, done),
    }
}

// Whole lines from the start of a block on, while there is room for answers and nothing is due. What is left without an LF is held.
fn whole_lines(k: Manner, s: Session, block: &[u8], out: &mut [u8]) -> Fed
    requires fine_state { FineState s.state }
    requires nothing_held { s.held.count ≡ 0 }
    requires buffer_limit_in_bounds { buffer_limit ≤ length out.old }
    ensures feeds { Feeds k s block.now out.old out.new result }
    ensures reasoned { Reasoned result.due }
{
    let fed = run_lines(k, s, block, out);
    let end = line_end(block, fed.used);
    if end == block.len() {
        let held = keep(s.held, &block[fed.used..]);
        return Fed {
            session: Session {
                held,
                ..fed.session
            },
            used: end,
            ..fed
        };
    }
    fed
}

// A block that begins within a line: as far as that line goes.
fn held_line(k: Manner, s: Session, block: &[u8], out: &mut [u8]) -> Fed
    requires fine_state { FineState s.state }
    requires buffer_limit_in_bounds { buffer_limit ≤ length out.old }
    ensures feeds { Feeds k s block.now out.old out.new result }
    ensures reasoned { Reasoned result.due }
{
    let end = line_end(block, 0);
    let held = keep(s.held, &block[..end]);
    if end == block.len() {
        return Fed {
            session: Session { held, ..s },
            used: end,
            written: 0,
            due: nothing_due(),
        };
    }
    let answered = answer_line(k, s, held.line(), out);
    Fed {
        used: end + 1,
        ..answered
    }
}

// A block: the line that was held, if there is one, or else whole lines.
pub fn feed(k: Manner, s: Session, block: &[u8], out: &mut [u8]) -> Fed
    requires fine_state { FineState s.state }
    requires buffer_limit_in_bounds { buffer_limit ≤ length out.old }
    ensures feeds { Feeds k s block.now out.old out.new result }
    ensures reasoned { Reasoned result.due }
{
    if s.held.count == 0 {
        whole_lines(k, s, block, out)
    } else {
        held_line(k, s, block, out)
    }
}

// The end of the input: a line that no LF has ended is answered too, and something may be due behind it.
pub fn finish(k: Manner, s: Session, out: &mut [u8]) -> Fed
    requires fine_state { FineState s.state }
    requires buffer_limit_in_bounds { buffer_limit ≤ length out.old }
    ensures ends { Ends k s out.old out.new result }
    ensures reasoned { Reasoned result.due }
{
    if s.held.count == 0 {
        return Fed {
            session: s,
            used: 0,
            written: 0,
            due: nothing_due(),
        };
    }
    answer_line(k, s, s.held.line(), out)
}
