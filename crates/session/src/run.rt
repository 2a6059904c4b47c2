// The lines of a block, one after the other, until something is due. The state and the tally lie open in their parts, and what a line does is done there in place: no line copies them.
ghost use Rattle.std.specs.Prelude.{◌≡◌, ◌≤◌, length};
ghost use Rattle.model.specs.Limits.{buffer_limit};
ghost use Rattle.model.specs.Stored.{FineState};
ghost use Rattle.model.specs.Trace.{refusal_text};
ghost use Rattle.facts.specs.Refusals.{outcome};
ghost use Rattle.reply.specs.Lines.{Replied};
ghost use Rattle.engine.specs.Taken.{count_of};
ghost use Rattle.session.specs.Blocks.{Says, Runs, Reasoned};

use crate::due::{Manner, due_behind, is_due, nothing_due};
use crate::feed::{Fed, Session};
use commands::changed::Deed;
use engine::answer::Step;
use engine::line::{decide, settled};
use facts::limits::BUFFER_LIMIT;
use facts::refusals::{Refusal, number_told};
use lines::line_end;
use memory::edit::{put_at, removed_at};
use memory::factory::factory_memory;
use model::State;
use print::{put_byte, put_decimal, put_text};
use tally::Tally;
use tally::counting::count_in;

// E and the number of a refusal.
fn put_refusal(number: u8, out: &mut [u8]) -> usize
    requires { buffer_limit ≤ length out.old }
    ensures { Replied (refusal_text number) out.old out.new result }
{
    let a = put_text(out, 0, b"E ");
    let b = put_decimal(out, a, u64::from(number));
    put_byte(out, b, b'\n')
}

// How many bytes an answer has, once E and the number are written where it is a refusal.
pub fn say(number: u8, count: usize, out: &mut [u8]) -> usize
    requires { buffer_limit ≤ length out.old }
    ensures { Says number count out.old out.new result }
{
    if number == 0 {
        return count;
    }
    put_refusal(number, out)
}

// The same of a line that was settled.
pub fn say_settled(settled: Result<Step, Refusal>, out: &mut [u8]) -> usize
    requires { buffer_limit ≤ length out.old }
    ensures { Says (outcome settled) (count_of settled) out.old out.new result }
{
    match settled {
        Ok(step) => say(0, step.length, out),
        Err(why) => say(u8::from(why), 0, out),
    }
}

// Whole lines from the start of a block on, while there is room for an answer and nothing is due. What is held stays as it is.
pub fn run_lines(k: Manner, s: Session, block: &[u8], out: &mut [u8]) -> Fed
    requires fine_state { FineState s.state }
    requires buffer_limit_in_bounds { buffer_limit ≤ length out.old }
    ensures runs { Runs k s block.now out.old out.new result }
    ensures reasoned { Reasoned result.due }
{
    let State {
        mut volatile,
        mut permanent,
        position,
        mut level,
        mut error,
    } = s.state;
    let mut counts = s.tally.counts;
    let mut total = s.tally.total;
    let mut used = 0;
    let mut written = 0;
    let mut due = nothing_due();
    while BUFFER_LIMIT <= out.len() - written {
        let end = line_end(block, used);
        if is_due(due) | (end == block.len()) {
            break;
        }
        let line = &block[used..end];
        let decided = decide(volatile, position, level, error, line, &mut out[written..]);
        let done = settled(permanent, decided);
        total = count_in(&mut counts, total, number_told(done));
        due = due_behind(k, done);
        written += say_settled(done, &mut out[written..]);
        used = end + 1;
        match done {
            Err(why) => error = u8::from(why),
            Ok(step) => match step.deed {
                Deed::Keep => {}
                Deed::SetError(n) => error = n,
                Deed::Put(place, system) => volatile = put_at(volatile, place, system),
                Deed::Remove(place, _) => volatile = removed_at(volatile, place),
                Deed::Enable(e) => volatile.enabled = e,
                Deed::SetLevel(n) => level = n,
                Deed::Save => permanent = volatile,
                Deed::Restore => volatile = permanent,
                Deed::Reset => volatile = factory_memory(),
            },
        }
    }
    let state = State {
        volatile,
        permanent,
        position,
        level,
        error,
    };
    let tally = Tally { counts, total };
    Fed {
        session: Session {
            state,
            tally,
            held: s.held,
        },
        used,
        written,
        due,
    }
}
