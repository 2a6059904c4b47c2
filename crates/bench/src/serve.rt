// A block of input, and its end: fed to the session until something is due, which is handed out before the next line is answered.
ghost use Rattle.std.specs.Prelude.{◌≡◌, true, ◌≤◌, length};
ghost use Rattle.model.specs.Limits.{buffer_limit};
ghost use Rattle.model.specs.Stored.{FineState};
ghost use Rattle.bench.specs.Serve.{Imaged, Serves};

use crate::edge::{Last, Receipt, hand_out_last, hand_out_part, nothing_handed};
use model::State;
use session::due::{Due, Manner};
use session::feed::{Session, feed, finish};
use store::save::Target;
use store::say::Complained;

// The image that is to be stored, if one is, of what is permanent now: its length. Where none is, which `due` says, there is no byte.
fn put_image(due: Due, s: State, out: &mut [u8]) -> usize
    requires fine_state { FineState s }
    requires room_for_image { buffer_limit ≤ length out.old }
    ensures { Imaged due s out.new result }
{
    if due.store {
        return machine::write_image(s, out).outcome.unwrap_or(0);
    }
    0
}

// A block is fed until all of it is used, in a manner that stores. out takes answers, and image an image. What is due and cannot be done has said so; the session
// is then as it was before the part that it was due for. How far a turn goes is what the session used, so there is no range to go over.
pub fn serve(
    rt: HostRuntime,
    k: Manner,
    session: &mut Session,
    to: Target<'_, '_>,
    block: &[u8],
    out: &mut [u8],
    image: &mut [u8],
) -> Result<Receipt, Complained>
    requires fine_state { FineState session.old.state }
    requires room_for_answers { buffer_limit ≤ length out.old }
    requires room_for_image { buffer_limit ≤ length image.old }
    requires storing { k.storing ≡ true }
    ensures { Serves k session.old block.now session.new result }
{
    let s = *session;
    let mut receipt = nothing_handed();
    let mut at = 0;
    while at < block.len() {
        let f = feed(k, *session, &block[at..], out);
        let end = at + f.used;
        let size = put_image(f.due, f.session.state, image);
        receipt = hand_out_part(
            rt,
            k,
            s,
            block,
            receipt,
            end,
            to,
            &out[..f.written],
            f.due,
            &image[..size],
        )?;
        *session = f.session;
        at = end;
    }
    Ok(receipt)
}

// The end of the input.
pub fn serve_last(
    rt: HostRuntime,
    k: Manner,
    s: Session,
    to: Target<'_, '_>,
    out: &mut [u8],
    image: &mut [u8],
) -> Result<Last, Complained>
    requires fine_state { FineState s.state }
    requires room_for_answers { buffer_limit ≤ length out.old }
    requires room_for_image { buffer_limit ≤ length image.old }
    requires storing { k.storing ≡ true }
{
    let last = finish(k, s, out);
    let size = put_image(last.due, last.session.state, image);
    hand_out_last(rt, k, s, to, &out[..last.written], last.due, &image[..size])
}
