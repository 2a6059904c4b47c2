// Where files are: names beside a path, the folder that holds it, and the file that a link leads to.
ghost use Rattle.std.specs.Prelude.{◌≡◌, ◌++◌, ◌≤◌, length, take, IfSome, IfOk};
ghost use Rattle.io.specs.Counts.{IsPrefixLen};
ghost use Rattle.std.specs.Io.{ReadsAtMost};
ghost use Rattle.store.specs.Place.{Placed, Follows, slash_end, folder_of, link_start, target_of, longest_path};

use crate::reach::{PATH_MAX, is_symlink, is_unreadable, link_text};
use crate::say::{Complained, complain};
use print::put_text;

// Links that are followed before the chain is given up: a ring of links has no end.
const MOST_LINKS: usize = 8;

// The longest path, `longest_path` of specs/: it leaves room for the longest suffix, `.saving`, and for C's 0.
pub(crate) const LONGEST_PATH: usize = PATH_MAX - 8;

// One text followed by another, from byte 0 on: its length, where there is room for it.
pub fn beside(path: &[u8], suffix: &[u8], out: &mut [u8]) -> Option<usize>
    ensures placed { Placed (path.now ++ suffix.now) out.old out.new result }
    ensures prefix_len { IfSome result (λ n. IsPrefixLen n out.new) }
{
    if out.len() < path.len() || out.len() - path.len() < suffix.len() {
        return None;
    }
    let n = put_text(out, 0, path);
    Some(put_text(out, n, suffix))
}

// One text, from byte 0 on.
fn alone(text: &[u8], out: &mut [u8]) -> Option<usize>
    ensures placed { Placed text.now out.old out.new result }
    ensures prefix_len { IfSome result (λ n. IsPrefixLen n out.new) }
{
    beside(text, b"", out)
}

// The place after the last '/', or 0 where there is none: where the file's own name begins.
pub(crate) fn slash_end(path: &[u8]) -> usize
    ensures value { result ≡ slash_end path.now }
    ensures upper_bound { result ≤ length path.now }
{
    match path.iter().rposition(|&b| b == b'/') {
        Some(i) => i + 1,
        None => 0,
    }
}

// The folder that holds the file of this path.
pub fn folder(path: &[u8], out: &mut [u8]) -> Option<usize>
    ensures placed { Placed (folder_of path.now) out.old out.new result }
    ensures prefix_len { IfSome result (λ n. IsPrefixLen n out.new) }
{
    match slash_end(path) {
        0 => alone(b".", out),
        1 => alone(b"/", out),
        end => alone(&path[..end - 1], out),
    }
}

// How much of a link's own path stands before its text: nothing where the text begins at the root, else the link's folder.
fn link_start(path: &[u8], text: &[u8]) -> usize
    ensures value { result ≡ link_start path.now text.now }
    ensures upper_bound { result ≤ length path.now }
{
    if text.starts_with(b"/") {
        return 0;
    }
    slash_end(path)
}

// A link's path, which stands first in a buffer, is replaced by the path that the link's text means.
fn relink(path: &mut [u8], n: usize, text: &[u8]) -> Option<usize>
    requires { n ≤ length path.old }
    ensures placed { Placed (target_of (take n path.old) text.now) path.old path.new result }
    ensures prefix_len { IfSome result (λ n. IsPrefixLen n path.new) }
{
    let start = link_start(&path[..n], text);
    if path.len() - start < text.len() {
        return None;
    }
    Some(put_text(path, start, text))
}

// One link is followed, in place: the length of the path that it means, or none where no link is there.
fn follow(
    rt: HostRuntime,
    name: &[u8],
    path: &mut [u8],
    n: usize,
) -> Result<Option<usize>, Complained>
    requires { n ≤ length path.old }
    ensures { Follows path.new result }
{
    let mut text = io::buffer();
    let k = match link_text(rt, &path[..n], &mut text) {
        Ok(k) => k,
        Err(e) if is_unreadable(e) => {
            return Err(complain(rt, name, b"the path that it links to is no text"));
        }
        Err(_) => return Ok(None),
    };
    match relink(path, n, &text[..k]) {
        Some(m) if 0 < m => Ok(Some(m)),
        _ => Err(complain(rt, name, b"the path that it links to is too long")),
    }
}

// Whether the name is that of a symbolic link.
pub fn is_link(rt: HostRuntime, name: &[u8]) -> bool {
    is_symlink(rt, name)
}

// The path of the file itself: while it is a link, it is replaced by what the link means.
pub fn settle(rt: HostRuntime, name: &[u8], out: &mut [u8]) -> Result<usize, Complained>
    ensures prefix_len { ReadsAtMost result out.new }
    ensures upper_bound { IfOk result (λ n. n ≤ longest_path) }
{
    let mut n = match alone(name, out) {
        Some(n) if 0 < n => n,
        _ => return Err(complain(rt, name, b"its path is empty or too long")),
    };
    for _ in 0..=MOST_LINKS {
        match follow(rt, name, out, n)? {
            Some(next) => n = next,
            None if n <= LONGEST_PATH => return Ok(n),
            None => return Err(complain(rt, name, b"its path is too long")),
        }
    }
    Err(complain(rt, name, b"a chain of more than 8 links"))
}
