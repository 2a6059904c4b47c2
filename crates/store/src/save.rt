// The file, written anew: a new file beside it gets the image, and then its name, so that at every moment the old image or the new one is there whole.
use crate::hold::nameless;
use crate::load::open_folder;
use crate::place::beside;
use crate::reach::{create, found, rename, unlink};
use crate::say::{Complained, complain, complain_why};
use std::fs::{File, Permissions};
use std::io::{Error, Write};
use std::os::unix::fs::{MetadataExt, PermissionsExt};

// The bits of a file's mode that can be set: who may do what, not its kind.
const MODE_BITS: u32 = 0o7777;

// A file that is there already keeps its mode; a new one has what the system gives.
fn keep_mode(rt: HostRuntime, path: &[u8], file: &File) -> std::io::Result<()> {
    match found(rt, path) {
        Some(old) => file.set_permissions(Permissions::from_mode(old.mode() & MODE_BITS)),
        None => Ok(()),
    }
}

// The image into the new file, down to its device.
fn fill(rt: HostRuntime, path: &[u8], file: &File, image: &[u8]) -> Result<(), Complained> {
    keep_mode(rt, path, file).map_err(|e| complain_why(
        rt,
        path,
        b"not saved: cannot set the mode",
        e,
    ))?;
    let mut to = file;
    to.write_all(image)
        .and_then(|()| file.sync_all())
        .map_err(|e| complain_why(rt, path, b"not saved: cannot write", e))
}

// The full new file takes the old one's name, if it still has its own: another program, which the lock did not keep off, may have removed it and made another
// of that name.
fn rename_full(rt: HostRuntime, path: &[u8], new: &[u8], file: &File) -> Result<(), Complained> {
    if nameless(rt, file) {
        return Err(complain(
            rt,
            path,
            b"not saved: its .saving file is gone; another ksbench may have the file",
        ));
    }
    rename(rt, new, path).map_err(|e| complain_why(rt, path, b"not saved: cannot rename", e))
}

// A new file is filled and renamed; where that fails, it is removed.
fn fill_and_rename(
    rt: HostRuntime,
    path: &[u8],
    new: &[u8],
    file: &File,
    image: &[u8],
) -> Result<(), Complained> {
    let replaced = fill(rt, path, file, image).and_then(|()| rename_full(rt, path, new, file));
    if replaced.is_err() && !nameless(rt, file) {
        let _ = unlink(rt, new);
    }
    replaced
}

// The same, and the file is closed. It was flushed before the rename, so closing it has nothing left to do that could fail.
fn replace(rt: HostRuntime, path: &[u8], new: &[u8], image: &[u8]) -> Result<(), Complained> {
    let file = create(rt, new).map_err(|e| complain_why(
        rt,
        path,
        b"not saved: cannot create its .saving file",
        e,
    ))?;
    fill_and_rename(rt, path, new, &file, image)
}

// Whether a file has this name.
fn is_there(rt: HostRuntime, path: &[u8], suffix: &[u8]) -> bool {
    let mut room = io::buffer();
    match beside(path, suffix, &mut room) {
        Some(n) => found(rt, &room[..n]).is_some(),
        None => false,
    }
}

// The file that is saved to: its path, and its lock, if there is one.
#[derive(Clone, Copy)]
pub struct Target<'p, 'l> {
    pub path: &'p [u8],
    pub lock: Option<&'l File>,
}

// No lock is held.
pub const UNLOCKED: Option<&File> = None;

// Whether the lock has stayed with its holder: another program that took it for left behind may have removed it, and where none could be made, another
// program may have made one since.
fn is_ours(rt: HostRuntime, to: Target<'_, '_>) -> bool {
    match to.lock {
        Some(file) => !nameless(rt, file),
        None => !is_there(rt, to.path, b".lock"),
    }
}

// The image into the file, under its lock. The folder is opened first, so that after the rename nothing but its flush can fail: until then a power cut may
// bring the old image back.
pub fn save(rt: HostRuntime, to: Target<'_, '_>, image: &[u8]) -> Result<(), Complained> {
    let path = to.path;
    if !is_ours(rt, to) {
        return Err(complain(
            rt,
            path,
            b"not saved: its .lock file is gone or another's; another ksbench may have the file",
        ));
    }
    let mut room = io::buffer();
    let Some(n) = beside(path, b".saving", &mut room) else {
        return Err(complain(rt, path, b"not saved: its path is too long"));
    };
    let folder = open_folder(rt, path).map_err(|e| complain_why(
        rt,
        path,
        b"not saved: cannot open its folder",
        e,
    ))?;
    replace(rt, path, &room[..n], image)?;
    folder.sync_all().map_err(|e| {
        complain_why(
            rt,
            path,
            b"saved, but its folder cannot be written to the disk",
            e,
        )
    })
}

// What a kill in the middle of a save left behind goes; where there is nothing, nothing happens.
pub fn clear(rt: HostRuntime, path: &[u8]) {
    let mut room = io::buffer();
    if let Some(n) = beside(path, b".saving", &mut room) {
        let _ = unlink(rt, &room[..n]);
    }
}
