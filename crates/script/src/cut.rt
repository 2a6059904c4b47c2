// What is held of a line that no block of the input has ended yet.
ghost use Rattle.std.specs.Prelude.{◌-◌, ◌≤◌, ◌++◌, length, take};
ghost use Rattle.print.specs.Over.{Wrote};
ghost use Rattle.script.specs.Run.{Keeps};

// The part's bytes behind the first count, as many as there is room for.
pub fn keep(line: &mut [u8], count: usize, part: &[u8]) -> usize
    requires { count ≤ length line.old }
    ensures wrote { Wrote (take (length line.old - count) part.now) line.old count line.new result }
    ensures within { result ≤ length line.old }
{
    let room = part.len().min(line.len() - count);
    print::put_text(line, count, &part[..room])
}

// What was held of a line, and the part behind it, to the front of a lent buffer, as far as it goes.
pub fn join(line: &mut [u8], held: &[u8], part: &[u8]) -> usize
    ensures { Keeps (held.now ++ part.now) line.new result }
{
    let count = keep(line, 0, held);
    keep(line, count, part)
}
