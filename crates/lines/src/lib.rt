// Where a line ends in a block of bytes.
#![tactic(auto)]

ghost use Rattle.std.specs.Prelude.{◌≡◌, ◌==◌, ◌+◌, ◌≤◌, length, drop, position};
ghost use Rattle.lines.specs.Before.{before};

// The place of the first LF.
fn first_end(bytes: &[u8]) -> Option<usize>
    ensures { result ≡ position (λ b. b == 10) bytes.now }
{
    bytes.iter().position(|b| *b == b'\n')
}

// The place of the first LF from a place on, or the length where there is none.
pub fn line_end(block: &[u8], at: usize) -> usize
    requires { at ≤ length block.now }
    ensures { result ≡ at + before (drop at block.now) }
{
    match first_end(&block[at..]) {
        Some(n) => at + n,
        None => block.len(),
    }
}
