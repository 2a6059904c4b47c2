// What goes out. What is handed over here for a part of the input is all that the definition has for it, in its order, and whoever has handed it over gets a
// receipt for that part's end, which no other module can make: a loop that passes over a part has none. (That the receipts of a block are asked for with that
// block and its session is read in `serve`: a receipt names a place only.) No other function of this crate writes answers or the file.
ghost use Rattle.std.specs.Prelude.{◌≡◌, ◌++◌, take};
ghost use Rattle.model.specs.Reasons.{reason_line};
ghost use Rattle.session.specs.Feed.{ended_acts};
ghost use Rattle.session.specs.Blocks.{held_of, manner_of};
ghost use Rattle.bench.specs.Serve.{given, outgoing, Hands};

use reasons::put_reason;
use session::due::{Due, Manner};
use session::feed::Session;
use std::io::Print;
use store::save::{Target, save};
use store::say::{Complained, say};

// The receipt: all that is due for a block up to this place was handed out. The place is this module's own.
#[derive(Clone, Copy)]
pub struct Receipt {
    at: usize,
}

// That the end of the input was handed out. Only this module makes one.
#[derive(Clone, Copy)]
pub struct Last {
    made: (),
}

// Before the first byte of a block.
pub(crate) fn nothing_handed() -> Receipt
    ensures { result.at ≡ 0 }
{
    Receipt { at: 0 }
}

fn write_reason(rt: HostRuntime, number: u8, text: &[u8])
    requires { text.now ≡ reason_line number }
{
    say(rt, text);
}

fn explain(rt: HostRuntime, number: u8) {
    let mut text = io::buffer();
    let n = put_reason(number, &mut text);
    write_reason(rt, number, &text[..n]);
}

fn write_answers(rt: HostRuntime, answers: &[u8]) -> Result<(), Complained> {
    Print::write_all(&rt.stdout(), answers).map_err(|_| say(
        rt,
        b"ksbench: standard output cannot be written\n",
    ))
}

// Answers to standard output, then the image to the file, then the reason to standard error. What fails has said so, and nothing is done after it.
fn hand_out(
    rt: HostRuntime,
    to: Target<'_, '_>,
    answers: &[u8],
    due: Due,
    image: &[u8],
) -> Result<(), Complained> {
    write_answers(rt, answers)?;
    if due.store {
        save(rt, to, image)?;
    }
    if let Some(number) = due.reason {
        explain(rt, number);
    }
    Ok(())
}

// For a block of a session s, from the receipt's place on up to another.
pub(crate) fn hand_out_part(
    rt: HostRuntime,
    k: Manner,
    s: Session,
    block: &[u8],
    before: Receipt,
    end: usize,
    to: Target<'_, '_>,
    answers: &[u8],
    due: Due,
    image: &[u8],
) -> Result<Receipt, Complained>
    requires { (given k s (take end block.now)).output ≡ (given k s (take before.at block.now)).output ++ outgoing answers.now due image.now }
    ensures { Hands end result }
{
    hand_out(rt, to, answers, due, image)?;
    Ok(Receipt { at: end })
}

// For the end of the input, where what is held is a line.
pub(crate) fn hand_out_last(
    rt: HostRuntime,
    k: Manner,
    s: Session,
    to: Target<'_, '_>,
    answers: &[u8],
    due: Due,
    image: &[u8],
) -> Result<Last, Complained>
    requires { ended_acts (manner_of k) (held_of s) ≡ outgoing answers.now due image.now }
{
    hand_out(rt, to, answers, due, image)?;
    Ok(Last { made: () })
}
