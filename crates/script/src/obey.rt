// One line of a script, carried out and answered.
ghost use Rattle.std.specs.Prelude.{◌+◌, ◌*◌, ◌≤◌, length};
ghost use Rattle.model.specs.Stored.{view_of, line_answer, image_answer, use_answer};
ghost use Rattle.engine.specs.Answers.{answered_of};
ghost use Rattle.machine.specs.Calls.{begun_of};
ghost use Rattle.script.specs.Answer.{beside, longest_answer};
ghost use Rattle.script.specs.Obey as Obey;
ghost use Rattle.script.specs.Obey.{alone, asking, blank, Answers, Obeys};

use crate::answer::{put_complaint, put_said, put_told};
use crate::parse::{Directive, parse};
use crate::rooms::Rooms;
use engine::answer::Stepped;
use facts::refusals::number_told;
use machine::Begun;
use model::State;

// The next state, and where the answer ends.
#[derive(Clone, Copy)]
pub struct Obeyed {
    pub state: State,
    pub end: usize,
}

// A call that was lent a buffer, which holds its reply.
fn say(r: Stepped, reply: &[u8], out: &mut [u8], at: usize) -> Obeyed
    requires { at + 2 * length reply.now + beside ≤ length out.old }
    ensures { Answers (Obey.lent (answered_of r reply.now)) out.old at out.new result }
{
    let number = number_told(r.outcome);
    let count = r.outcome.unwrap_or(0).min(reply.len());
    let end = put_said(out, at, number, &reply[..count]);
    Obeyed {
        state: r.state,
        end,
    }
}

// A call that was lent none.
fn say_begun(r: Begun, out: &mut [u8], at: usize) -> Obeyed
    requires { at + beside ≤ length out.old }
    ensures { Answers (alone (begun_of r)) out.old at out.new result }
{
    let number = number_told(r.outcome);
    let end = put_said(out, at, number, b"");
    Obeyed {
        state: r.state,
        end,
    }
}

fn obey_line(s: State, line: &[u8], lent: &mut [u8], out: &mut [u8], at: usize) -> Obeyed
    requires { at + 2 * length lent.old + beside ≤ length out.old }
    ensures { Answers (Obey.lent (line_answer (view_of s) line.now (blank (length lent.old)))) out.old at out.new result }
{
    let r = machine::line(s, line, lent);
    say(r, lent, out, at)
}

fn obey_write(s: State, lent: &mut [u8], out: &mut [u8], at: usize) -> Obeyed
    requires { at + 2 * length lent.old + beside ≤ length out.old }
    ensures { Answers (Obey.lent (image_answer (view_of s) (blank (length lent.old)))) out.old at out.new result }
{
    let r = machine::write_image(s, lent);
    say(r, lent, out, at)
}

fn obey_use(s: State, name: &[u8], out: &mut [u8], at: usize) -> Obeyed
    requires { at + longest_answer ≤ length out.old }
    ensures { Answers (asking (view_of s) (use_answer (view_of s) name.now)) out.old at out.new result }
{
    let end = put_told(out, at, machine::in_use(s, name));
    Obeyed { state: s, end }
}

// The bytes of the command line, the image or the name stand in the room for bytes, and the reply in the room for replies.
pub fn obey(s: State, text: &[u8], line: u64, rooms: &mut Rooms, at: usize) -> Obeyed
    requires { at + longest_answer ≤ length rooms.old.out.now }
    ensures { Obeys (view_of s) line text.now rooms.old.out.now at rooms.new.out.now result }
{
    let Some(directive) = parse(text, rooms.bytes) else {
        let end = put_complaint(rooms.out, at, line);
        return Obeyed { state: s, end };
    };
    match directive {
        Directive::Line { count, length } => obey_line(
            s,
            &rooms.bytes[..count],
            &mut rooms.reply[..length],
            rooms.out,
            at,
        ),
        Directive::Write(length) => obey_write(s, &mut rooms.reply[..length], rooms.out, at),
        Directive::Restart => say_begun(machine::restart(s), rooms.out, at),
        Directive::Image(count) => say_begun(
            machine::start_image(&rooms.bytes[..count]),
            rooms.out,
            at,
        ),
        Directive::Factory => {
            let state = machine::start_factory();
            let outcome = Ok(());
            say_begun(Begun { state, outcome }, rooms.out, at)
        }
        Directive::Use(count) => obey_use(s, &rooms.bytes[..count], rooms.out, at),
        Directive::Position(p) => say_begun(machine::set_position(s, p), rooms.out, at),
    }
}
