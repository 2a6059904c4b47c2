// The bytes that a line may have.
ghost use Rattle.std.specs.Prelude.{◌≡◌};
ghost use Rattle.model.specs.Refusals as model;

use facts::limits::LINE_LIMIT;

// Whether number 3 refuses the line. A long one is refused unread; otherwise every byte is judged, with no way out of the
// loop, so that many can be judged at a time.
pub fn unreadable(line: &[u8]) -> bool
    ensures { result ≡ model.unreadable line.now }
{
    if LINE_LIMIT < line.len() {
        return true;
    }
    let mut fine = true;
    for &b in line {
        fine &= (32 <= b) & (b <= 126);
    }
    !fine
}
