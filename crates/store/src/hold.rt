// One program at a time on one file, by a lock file beside it, which its maker keeps open. A lock whose maker no longer has it open was left behind by a
// program that was killed; the system tells this under /proc, of every process that it shows there.
ghost use Rattle.std.specs.Prelude.{◌≤◌, length};
ghost use Rattle.io.specs.Counts.{IsPrefixLen};
ghost use Rattle.std.specs.Io.{ReadsAtMost};
ghost use Rattle.store.specs.Mark.{Short, Marked, longest_number};

use crate::mark::{DIGITS, ROOM, digits, put_mark, put_program, put_shown, read_mark};
use crate::place::beside;
use crate::reach::{
    create, found, is_same_file, is_unlinked, is_unreadable, link_text, open_read, unlink,
};
use crate::say::{Complained, complain, complain_taken, complain_unknown, complain_why};
use std::fs::File;
use std::io::{Error, ErrorKind, Write};
use std::os::fd::AsRawFd;
use std::os::unix::fs::FileExt;
use std::process;
use std::thread::yield_now;

// How often a lock is looked at again that may be on its way: an empty one, whose maker writes its mark at once, but perhaps not before it is read here; and
// one whose maker is just being ended. That is some tenths of a second.
const TURNS: u32 = 30000;

// A lock is there already: another program has it, or it was left behind.
#[derive(Clone, Copy)]
struct Taken;

// The process that a lock names: it still has the lock open; it does not; or that cannot be told. None of the three is a failure of the question, so this is no
// Result.
#[derive(Clone, Copy)]
enum Maker {
    Runs,
    Gone,
    Unknown,
}

// What the system shows for a descriptor of a process: the path of its file.
fn shown(rt: HostRuntime, process: &[u8], number: &[u8], out: &mut [u8]) -> std::io::Result<usize>
    requires { Short process.now number.now }
    ensures { ReadsAtMost result out.new }
{
    let mut name = [0u8; ROOM];
    let n = put_shown(process, number, &mut name);
    link_text(rt, &name[..n], out)
}

// The same for a descriptor of this program.
fn shown_here(rt: HostRuntime, file: &File, out: &mut [u8]) -> std::io::Result<usize>
    ensures { ReadsAtMost result out.new }
{
    let mut number = [0u8; DIGITS];
    let k = digits(file.as_raw_fd(), &mut number);
    shown(rt, b"self", &number[..k], out)
}

// Whether the lock of a descriptor has lost its name: the system then puts ` (deleted)` behind its path, which else ends in `.lock`. Where that path cannot be
// had as text, the file itself is asked how many names it has.
pub(crate) fn nameless(rt: HostRuntime, file: &File) -> bool {
    let mut path = io::buffer();
    match shown_here(rt, file, &mut path) {
        Ok(n) => path[..n].ends_with(b")"),
        Err(e) => is_unreadable(e) && is_unlinked(file),
    }
}

// The maker's descriptor is not shown: it is not there, or may not be seen. A process that was killed, and that its parent has not yet waited for, shows none even
// to its own user; but then it runs no program either.
fn unshown(rt: HostRuntime, process: &[u8], why: Error) -> Maker
    requires { length process.now ≤ longest_number }
{
    if why.kind() == ErrorKind::NotFound {
        return Maker::Gone;
    }
    let mut name = [0u8; ROOM];
    let n = put_program(process, &mut name);
    let mut text = [0u8; 1];
    match link_text(rt, &name[..n], &mut text) {
        Err(e) if e.kind() == ErrorKind::NotFound => Maker::Gone,
        _ => Maker::Unknown,
    }
}

// Whether the maker's descriptor is on the file that is open here, where a path cannot be had as text.
fn compared_by_file(rt: HostRuntime, process: &[u8], number: &[u8], file: &File) -> Maker
    requires { Short process.now number.now }
{
    let mut name = [0u8; ROOM];
    let n = put_shown(process, number, &mut name);
    match is_same_file(rt, &name[..n], file) {
        Ok(true) => Maker::Runs,
        Ok(false) => Maker::Gone,
        Err(e) => unshown(rt, process, e),
    }
}

// Whether the maker's descriptor is on the file of this path, which is open here.
fn compared(rt: HostRuntime, process: &[u8], number: &[u8], path: &[u8], file: &File) -> Maker
    requires { Short process.now number.now }
{
    let mut theirs = io::buffer();
    match shown(rt, process, number, &mut theirs) {
        Ok(n) if path == &theirs[..n] => Maker::Runs,
        Ok(_) => Maker::Gone,
        Err(e) if is_unreadable(e) => compared_by_file(rt, process, number, file),
        Err(e) => unshown(rt, process, e),
    }
}

// The maker of the lock that is open here.
fn maker_of(rt: HostRuntime, process: &[u8], number: &[u8], file: &File) -> Maker
    requires { Short process.now number.now }
{
    let mut path = io::buffer();
    match shown_here(rt, file, &mut path) {
        Ok(n) => compared(rt, process, number, &path[..n], file),
        Err(e) if is_unreadable(e) => compared_by_file(rt, process, number, file),
        Err(_) => Maker::Unknown,
    }
}

// The same, after some patience: a program that was killed a moment ago may not have ended yet.
fn maker_after_all(rt: HostRuntime, process: &[u8], number: &[u8], file: &File) -> Maker
    requires { Short process.now number.now }
{
    for _ in 0..TURNS {
        match maker_of(rt, process, number, file) {
            Maker::Runs => yield_now(),
            other => return other,
        }
    }
    Maker::Runs
}

// The lock's bytes: an empty one is read again for a while.
fn read_lock(file: &File, out: &mut [u8]) -> usize
    ensures { IsPrefixLen result out.new }
{
    for _ in 0..TURNS {
        match file.read_at(out, 0) {
            Ok(n) if 0 < n => return n,
            _ => yield_now(),
        }
    }
    0
}

// The lock that is open here was left behind, by its mark, whose numbers end at these places; else a complaint is made.
fn marked_left(
    rt: HostRuntime,
    path: &[u8],
    mark: &[u8],
    ends: (usize, usize),
    file: &File,
) -> Result<(), Complained>
    requires { Marked mark.now ends }
{
    let (a, b) = ends;
    let process = &mark[..a];
    match maker_after_all(rt, process, &mark[a + 1..b], file) {
        Maker::Runs => Err(complain_taken(rt, path, process)),
        Maker::Gone => Ok(()),
        Maker::Unknown => Err(complain_unknown(rt, path)),
    }
}

// The number of this program's process.
fn own_number(rt: HostRuntime) -> i32 {
    i32::try_from(process::id(rt.process())).unwrap_or(-1)
}

// The mark of this program for a descriptor of its own.
fn own_mark(rt: HostRuntime, file: &File, out: &mut [u8; ROOM]) -> usize
    ensures { IsPrefixLen result out.new }
{
    let mut process = [0u8; DIGITS];
    let p = digits(own_number(rt), &mut process);
    let mut number = [0u8; DIGITS];
    let k = digits(file.as_raw_fd(), &mut number);
    put_mark(&process[..p], &number[..k], out)
}

// Whether the mark names the descriptor that was opened here just now: its maker had the same numbers as this program, as after every restart of a machine
// that starts alike each time.
fn names_this(rt: HostRuntime, mark: &[u8], file: &File) -> bool {
    let mut text = [0u8; ROOM];
    let n = own_mark(rt, file, &mut text);
    mark == &text[..n]
}

// The same for any lock. One without a mark is of a maker that was killed before it could write it.
fn left_behind(rt: HostRuntime, path: &[u8], file: &File) -> Result<(), Complained> {
    let mut text = [0u8; ROOM];
    let n = read_lock(file, &mut text);
    let mark = &text[..n];
    if names_this(rt, mark, file) {
        return Ok(());
    }
    match read_mark(mark) {
        Some(ends) => marked_left(rt, path, mark, ends, file),
        None => Ok(()),
    }
}

// A pipe in the place of a lock would keep whoever opens it waiting.
fn may_open(rt: HostRuntime, lock: &[u8]) -> bool {
    found(rt, lock).is_none_or(|file| file.is_file())
}

// A lock that was left behind loses its name, unless another program has just taken it away and put its own there.
fn remove(rt: HostRuntime, path: &[u8], lock: &[u8], file: &File) -> Result<(), Complained> {
    if nameless(rt, file) {
        return Ok(());
    }
    match unlink(rt, lock) {
        Err(e) if e.kind() != ErrorKind::NotFound => Err(complain_why(
            rt,
            path,
            b"its .lock file was left behind, and cannot be removed",
            e,
        )),
        _ => Ok(()),
    }
}

// The lock that is there is removed where it was left behind; else a complaint is made.
fn put_aside(rt: HostRuntime, path: &[u8], lock: &[u8]) -> Result<(), Complained> {
    if !may_open(rt, lock) {
        return Err(complain_unknown(rt, path));
    }
    match open_read(rt, lock) {
        Ok(file) => {
            left_behind(rt, path, &file)?;
            remove(rt, path, lock, &file)
        }
        Err(e) if e.kind() == ErrorKind::NotFound => Ok(()),
        Err(_) => Err(complain_unknown(rt, path)),
    }
}

// The mark goes into a new lock.
fn sign(rt: HostRuntime, file: &File) -> std::io::Result<()> {
    let mut text = [0u8; ROOM];
    let n = own_mark(rt, file, &mut text);
    let mut to = file;
    to.write_all(&text[..n])
}

// A new lock stays open. On a full disk it is none; and another program that took the last one for left behind may have removed this one instead.
fn keep(rt: HostRuntime, lock: &[u8], file: File) -> Result<Option<File>, Taken> {
    if sign(rt, &file).is_err() {
        let _ = unlink(rt, lock);
        return Ok(None);
    }
    if nameless(rt, &file) {
        return Err(Taken);
    }
    Ok(Some(file))
}

// A new lock, if there is none and one can be made.
fn lock_new(rt: HostRuntime, lock: &[u8]) -> Result<Option<File>, Taken> {
    match create(rt, lock) {
        Ok(file) => keep(rt, lock, file),
        Err(e) if e.kind() == ErrorKind::AlreadyExists => Err(Taken),
        Err(_) => Ok(None),
    }
}

// The lock of the file of this path, path + `.lock`: it is held as long as this file is open. It is none where none can be made here now, as on a full disk; and
// where another program has it, a complaint is made. A lock that was left behind is put aside once: whoever made the one that is there then was quicker.
pub fn hold(rt: HostRuntime, path: &[u8]) -> Result<Option<File>, Complained> {
    let mut room = io::buffer();
    let Some(n) = beside(path, b".lock", &mut room) else {
        return Ok(None);
    };
    let lock = &room[..n];
    if let Ok(first) = lock_new(rt, lock) {
        return Ok(first);
    }
    put_aside(rt, path, lock)?;
    lock_new(rt, lock).map_err(|_| {
        complain(
            rt,
            path,
            b"its .lock file cannot be made: another ksbench has just taken it, or a link stands in its place",
        )
    })
}

// The lock is given back, if it is still there. Its name goes first: the other way round, another program could put its own lock there in between, and lose it.
pub fn release(rt: HostRuntime, path: &[u8], lock: File) {
    let mut room = io::buffer();
    if let Some(n) = beside(path, b".lock", &mut room) {
        if !nameless(rt, &lock) {
            let _ = unlink(rt, &room[..n]);
        }
    }
}
