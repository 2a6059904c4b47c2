// What is held of a line that no block has ended yet.
ghost use Rattle.std.specs.Prelude.{◌≡◌, ◌++◌, ◌≤◌, take};
ghost use Rattle.session.specs.Feed.{enough};

use facts::limits::ENOUGH;

// The bytes of an unfinished line: the first count. Of a line that is too long, one byte too many is enough. (An array and its count, since nothing is allocated.)
#[derive(Clone, Copy)]
pub struct Kept {
    pub bytes: [u8; ENOUGH],
    pub count: usize,
    pub ghost few: { count ≤ enough },
}

impl Kept {
    // The bytes that are held.
    pub fn line(&self) -> &[u8]
        ensures { result.now ≡ take self.now.count self.now.bytes }
    {
        &self.bytes[..self.count]
    }
}

pub(crate) fn nothing_held() -> Kept
    ensures { result.count ≡ 0 }
{
    Kept {
        bytes: [0u8; ENOUGH],
        count: 0,
    }
}

// The held bytes, and behind them as many of the part's as are enough.
pub fn keep(held: Kept, part: &[u8]) -> Kept
    ensures { take result.count result.bytes ≡ take enough (take held.count held.bytes ++ part.now) }
{
    let room = ENOUGH - held.count;
    let more = room.min(part.len());
    let end = held.count + more;
    let mut bytes = held.bytes;
    bytes[held.count..end].copy_from_slice(&part[..more]);
    Kept { bytes, count: end }
}
