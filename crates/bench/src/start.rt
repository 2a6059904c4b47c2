// The start: from the bytes of the file, or at the factory where there is none.
ghost use Rattle.std.specs.Prelude.{◌≡◌, IfOk, IfErr, Ok};
ghost use Rattle.std.proofs.Math.Option.{none, some};
ghost use Rattle.model.specs.Stored.{FineState};
ghost use Rattle.model.specs.Bench.{powered_on};
ghost use Rattle.bench.specs.Start.{StartsWith};

use facts::refusals::Refusal;
use session::feed::{Session, begin_from};
use store::load::load;
use store::say::{Complained, complain};

// Without a file: at the factory.
pub fn start_without() -> Session
    ensures { StartsWith none (Ok result) }
{
    begin_from(machine::start_factory())
}

// With these bytes in the file. Where they are refused there is no session: no other start takes its place.
pub fn start_from(bytes: &[u8]) -> Result<Session, Refusal>
    ensures { StartsWith (some bytes.now) result }
{
    let begun = machine::start_image(bytes);
    begun.outcome?;
    Ok(begin_from(begun.state))
}

// The session that the bytes found give, or a word on why they are no image. The file stays as it is.
fn start_found(rt: HostRuntime, path: &[u8], bytes: &[u8]) -> Result<Session, Complained>
    ensures started { IfOk result (λ s. StartsWith (some bytes.now) (Ok s)) }
    ensures complained { IfErr result (λ e. (powered_on (some bytes.now)).number ≡ 0 → ⊥) }
{
    match start_from(bytes) {
        Ok(session) => Ok(session),
        Err(_) => Err(complain(
            rt,
            path,
            b"refused (14): it is no image; the file is left as it is",
        )),
    }
}

fn start_new(rt: HostRuntime, path: &[u8]) -> Session
    ensures { StartsWith none (Ok result) }
{
    complain(rt, path, b"no such file yet: starting at the factory");
    start_without()
}

// The file of this path; linked says that a link led there. Bytes that are no image stay in it as they are.
pub fn start(rt: HostRuntime, path: &[u8], linked: bool) -> Result<Session, Complained>
    ensures { IfOk result (λ s. FineState s.state) }
{
    let mut bytes = io::buffer();
    match load(rt, path, linked, &mut bytes)? {
        Some(n) => start_found(rt, path, &bytes[..n]),
        None => Ok(start_new(rt, path)),
    }
}
