// The calls that take a path. std takes a path as text: one that is no UTF-8 is answered as a file that cannot be reached, with the system's error for such
// bytes.
ghost use Rattle.std.specs.Io.{ReadsAtMost};
ghost use Rattle.io.specs.Counts.{IsPrefixLen};

use std::fs;
use std::fs::{File, Metadata, OpenOptions};
use std::io::{Error, ErrorKind};
use std::os::unix::fs::MetadataExt;

// The room for a path, with C's 0 behind it.
pub(crate) const PATH_MAX: usize = 4096;

// C's number for bytes that are no text, EILSEQ: a complaint has the system's words for it, which no ErrorKind of std has.
const NO_TEXT: i32 = 84;

fn text_of(path: &[u8]) -> std::io::Result<&str> {
    str::from_utf8(path).map_err(|_| Error::from_raw_os_error(NO_TEXT))
}

// What the system says of the file, links followed; nothing is opened. An error says why it says nothing.
pub(crate) fn seen(rt: HostRuntime, path: &[u8]) -> std::io::Result<Metadata> {
    let text = text_of(path)?;
    fs::metadata(&rt, text)
}

// The same, where it tells the file's kind: a mode of 0 does not.
pub(crate) fn found(rt: HostRuntime, path: &[u8]) -> Option<Metadata> {
    seen(rt, path).ok().filter(|file| file.mode() != 0)
}

// Whether the name is that of a symbolic link.
pub(crate) fn is_symlink(rt: HostRuntime, path: &[u8]) -> bool {
    text_of(path)
        .and_then(|text| fs::symlink_metadata(&rt, text))
        .is_ok_and(|found| found.is_symlink())
}

// Whether the file that the name leads to is the one that is open here.
pub(crate) fn is_same_file(rt: HostRuntime, path: &[u8], file: &File) -> std::io::Result<bool> {
    let text = text_of(path)?;
    let theirs = fs::metadata(&rt, text)?;
    let ours = file.metadata()?;
    Ok(theirs.dev() == ours.dev() && theirs.ino() == ours.ino())
}

// Whether the open file has lost its last name.
pub(crate) fn is_unlinked(file: &File) -> bool {
    file.metadata().is_ok_and(|found| found.nlink() == 0)
}

// Whether a link is there, and its text cannot be had: it is no UTF-8, or there is no memory for it.
pub(crate) fn is_unreadable(why: Error) -> bool {
    match why.kind() {
        ErrorKind::InvalidFilename => why.raw_os_error().is_none(),
        ErrorKind::OutOfMemory => true,
        _ => false,
    }
}

// As much of a text as there is room for, to the front of out.
fn put_front(text: &[u8], out: &mut [u8]) -> usize
    ensures { IsPrefixLen result out.new }
{
    let n = text.len().min(out.len());
    out[..n].copy_from_slice(&text[..n]);
    n
}

// The text of a symbolic link to the front of out, and its length, or an error where there is none. The text is read into a place of its own, which is given
// back at once.
pub(crate) fn link_text(rt: HostRuntime, path: &[u8], out: &mut [u8]) -> std::io::Result<usize>
    ensures { ReadsAtMost result out.new }
{
    let text = text_of(path)?;
    let found = fs::read_link(&rt, text)?;
    Ok(put_front(found.as_str().as_bytes(), out))
}

// Opens a file or a folder for reading.
pub(crate) fn open_read(rt: HostRuntime, path: &[u8]) -> std::io::Result<File> {
    let text = text_of(path)?;
    OpenOptions::new().read(true).open(&rt, text)
}

// Makes the file, for writing, where none has its name.
pub(crate) fn create(rt: HostRuntime, path: &[u8]) -> std::io::Result<File> {
    let text = text_of(path)?;
    OpenOptions::new()
        .write(true)
        .create_new(true)
        .open(&rt, text)
}

// The name goes.
pub(crate) fn unlink(rt: HostRuntime, path: &[u8]) -> std::io::Result<()> {
    let text = text_of(path)?;
    fs::remove_file(&rt, text)
}

pub(crate) fn rename(rt: HostRuntime, from: &[u8], to: &[u8]) -> std::io::Result<()> {
    let old = text_of(from)?;
    let new = text_of(to)?;
    fs::rename(&rt, old, new)
}
