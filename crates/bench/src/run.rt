// The program: its argument, the file's lock, the start, and blocks of input to the end.
ghost use Rattle.std.specs.Prelude.{◌≡◌, true};
ghost use Rattle.model.specs.Stored.{FineState};

use crate::edge::Last;
use crate::serve::{serve, serve_last};
use crate::start::start;
use session::due::Manner;
use session::feed::Session;
use std::env::{Env, FillError};
use std::fs::{File, OpenOptions};
use std::io::{Error, IsTerminal, Read};
use std::os::fd::{AsRawFd, IntoRawFd};
use store::hold::{hold, release};
use store::load::is_fit;
use store::place::{is_link, settle};
use store::save::{Target, clear};
use store::say::{Complained, fail, say};

// The numbers of standard input and standard error, and C's number for a name that is too long, ENAMETOOLONG: the complaint has the system's words for it, which no
// ErrorKind of std has.
const STDIN_FILENO: i32 = 0;

const STDERR_FILENO: i32 = 2;

const NAME_TOO_LONG: i32 = 36;

// Someone types the lines and reads the reasons.
fn at_terminal(rt: HostRuntime) -> bool {
    rt.stdin().is_terminal() && rt.stderr().is_terminal()
}

// What is saved is stored, and at a terminal refusals are explained.
fn manner_here(rt: HostRuntime) -> Manner
    ensures { result.storing ≡ true }
{
    let explaining = at_terminal(rt);
    Manner {
        storing: true,
        explaining,
    }
}

// Blocks are read and served to the end of the input. Nothing says that the input ends, so the turns are as many as a number has that no run uses up.
fn go(rt: HostRuntime, to: Target<'_, '_>, started: Session) -> Result<Last, Complained>
    requires { FineState started.state }
{
    let k = manner_here(rt);
    let mut input = io::large_buffer();
    let mut output = io::large_buffer();
    let mut image = io::buffer();
    let mut session = started;
    for _ in 0..u64::MAX {
        let n = rt
            .stdin()
            .read(&mut input)
            .map_err(|_| say(rt, b"ksbench: standard input cannot be read\n"))?;
        if n == 0 {
            break;
        }
        serve(
            rt,
            k,
            &mut session,
            to,
            &input[..n],
            &mut output,
            &mut image,
        )?;
    }
    serve_last(rt, k, session, to, &mut output, &mut image)
}

// With the file's lock, or without where none can be made. What a kill left behind goes where the start is a good one.
fn go_at(rt: HostRuntime, to: Target<'_, '_>, linked: bool) -> Result<Last, Complained> {
    let started = start(rt, to.path, linked)?;
    clear(rt, to.path);
    go(rt, to, started)
}

// One program at a time. A lock is made beside what may be a file, and nowhere else.
fn run_at(rt: HostRuntime, path: &[u8], linked: bool) -> Result<Last, Complained> {
    is_fit(rt, path)?;
    let lock = hold(rt, path)?;
    let held = lock.as_ref();
    let last = go_at(rt, Target { path, lock: held }, linked);
    if let Some(file) = lock {
        release(rt, path, file);
    }
    last
}

// The file that a name means.
pub fn run_on(rt: HostRuntime, name: &[u8]) -> Result<Last, Complained> {
    let mut path = io::buffer();
    let n = settle(rt, name, &mut path)?;
    run_at(rt, &path[..n], is_link(rt, name))
}

// Where standard input, output or error is closed, the next file that is opened would get its number, and answers would go there. So something stands in their
// place that cannot be read, and that cannot be written.
fn fill_input(rt: HostRuntime) {
    let Ok(file) = OpenOptions::new().append(true).open(&rt, "/dev/null") else {
        return;
    };
    if file.as_raw_fd() <= STDIN_FILENO {
        file.into_raw_fd();
    }
}

fn fill_outputs(rt: HostRuntime) {
    for _ in 0..2 {
        if let Ok(file) = File::open(&rt, "/dev/null") {
            if STDERR_FILENO < file.as_raw_fd() {
                return;
            }
            file.into_raw_fd();
        }
    }
}

// Whether the program was started with an argument of this number, its own name's being 0.
fn has_argument(rt: HostRuntime, i: usize) -> bool {
    let mut room = [0u8; 1];
    !matches!(rt.arg(i, &mut room), Err(FillError::NotPresent))
}

// What cannot be done has said so: nothing is left to be told at the end.
pub fn run(rt: HostRuntime) {
    fill_input(rt);
    fill_outputs(rt);
    if !has_argument(rt, 1) || has_argument(rt, 2) {
        say(
            rt,
            b"usage: ksbench IMAGE    (IMAGE: the file that keeps the saved coordinate systems; it is made at the first save)\n",
        );
        return;
    }
    let mut name = io::buffer();
    match rt.arg(1, &mut name) {
        Ok(n) => {
            let _ = run_on(rt, &name[..n]);
        }
        Err(_) => {
            fail(
                rt,
                b"ksbench: the name of the file",
                Error::from_raw_os_error(NAME_TOO_LONG),
            );
        }
    }
}
