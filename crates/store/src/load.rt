// The file, read whole. What kind of file it is is asked first, since a pipe or a device may keep whoever opens it waiting.
ghost use Rattle.std.specs.Prelude.{◌≤◌, length};
ghost use Rattle.model.specs.ImageClaims.{longest_image};
ghost use Rattle.std.specs.Io.{ReadsAtMost};
ghost use Rattle.store.specs.Load.{Loads, Opens};

use crate::place::{LONGEST_PATH, folder};
use crate::reach::{found, open_read, seen};
use crate::say::{Complained, complain, complain_why};
use print::put_text;
use std::fs::{File, Metadata};
use std::io::{Error, ErrorKind, Read};

// The longest image, as `longest_image` of the definitions has it.
pub const LONGEST_IMAGE: usize = 599;

// One byte more, so that a longer file shows.
const ROOM: usize = LONGEST_IMAGE + 1;

// Opens the folder that holds the file. Whoever asks has seen that the path fits.
pub(crate) fn open_folder(rt: HostRuntime, path: &[u8]) -> std::io::Result<File> {
    let mut room = io::buffer();
    let Some(n) = folder(path, &mut room) else {
        return Err(Error::from(ErrorKind::InvalidFilename));
    };
    open_read(rt, &room[..n])
}

// No file can have this path.
fn no_name(path: &[u8]) -> bool {
    path.last().is_none_or(|&b| b == b'/')
}

// There is no such file, and one could be made; or a complaint was made: the way to it is barred, or its kind could not be told.
fn absent(rt: HostRuntime, path: &[u8], linked: bool) -> Result<(), Complained> {
    let Err(e) = seen(rt, path) else {
        return Err(complain(rt, path, b"cannot be told what it is"));
    };
    if e.kind() != ErrorKind::NotFound {
        return Err(complain_why(rt, path, b"cannot be reached", e));
    }
    if linked {
        return Err(complain(rt, path, b"a link leads to it, and there is no such file"));
    }
    open_folder(rt, path).map_err(|e| complain_why(rt, path, b"its folder cannot be opened", e))?;
    Ok(())
}

// It may be opened: a regular file.
fn openable(rt: HostRuntime, path: &[u8], file: Metadata) -> Result<(), Complained> {
    if file.is_file() {
        return Ok(());
    }
    if file.is_dir() {
        return Err(complain(rt, path, b"it is a folder"));
    }
    Err(complain(rt, path, b"not a regular file"))
}

// There may be such a file: else a complaint is made.
pub fn is_fit(rt: HostRuntime, path: &[u8]) -> Result<(), Complained> {
    if no_name(path) {
        return Err(complain(rt, path, b"not the name of a file"));
    }
    match found(rt, path) {
        Some(file) => openable(rt, path, file),
        None => Ok(()),
    }
}

// Reads to the end of the file, or until the room is full. How far a turn goes is what the read gave, so there is no range to go over.
fn fill(file: &mut File, room: &mut [u8]) -> std::io::Result<usize>
    ensures { ReadsAtMost result room.new }
{
    let mut n = 0;
    while n < room.len() {
        let more = file.read(&mut room[n..])?;
        if more == 0 {
            break;
        }
        n += more;
    }
    Ok(n)
}

// What was read is an image's length at most, and goes to the front of out.
fn keep(rt: HostRuntime, path: &[u8], bytes: &[u8], out: &mut [u8]) -> Result<usize, Complained>
    requires { longest_image ≤ length out.old }
    ensures { Opens out.old out.new result }
{
    if LONGEST_IMAGE < bytes.len() {
        return Err(complain(rt, path, b"longer than any image (599 bytes)"));
    }
    Ok(put_text(out, 0, bytes))
}

// The image of a regular file.
fn open(rt: HostRuntime, path: &[u8], out: &mut [u8]) -> Result<usize, Complained>
    requires { longest_image ≤ length out.old }
    ensures { Opens out.old out.new result }
{
    let mut file = open_read(rt, path).map_err(|e| complain_why(rt, path, b"cannot be opened", e))?;
    let mut room = [0u8; ROOM];
    let n = fill(&mut file, &mut room).map_err(|e| complain_why(rt, path, b"cannot be read", e))?;
    keep(rt, path, &room[..n], out)
}

// The image in the file of this path, to the front of out: its length, or none where there is no file yet. `linked` says that the name given was a link.
pub fn load(
    rt: HostRuntime,
    path: &[u8],
    linked: bool,
    out: &mut [u8],
) -> Result<Option<usize>, Complained>
    requires { longest_image ≤ length out.old }
    ensures { Loads out.old out.new result }
{
    is_fit(rt, path)?;
    if LONGEST_PATH < path.len() {
        return Err(complain(rt, path, b"its path is too long"));
    }
    if found(rt, path).is_none() {
        absent(rt, path, linked)?;
        return Ok(None);
    }
    let n = open(rt, path, out)?;
    Ok(Some(n))
}
