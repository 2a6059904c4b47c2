// Whole numbers, seven bits to a byte, low ones first, and 128 more where another byte follows.
ghost use Rattle.std.specs.Prelude.{◌≡◌, ◌+◌, ◌≤◌, length, IfSome, EachIndex, slice_index};
ghost use Rattle.model.specs.Told.{or_number};
ghost use Rattle.model.specs.Image.{whole, numbers, up_to, several};
ghost use Rattle.print.specs.Over.{Wrote};
ghost use Rattle.image.specs.Views.{read_told};

// Takes a number off the front of the bytes, in its shortest form, if it is not above the most. What is left above a group is at most the 128th part, so
// the groups end however many bytes there are.
pub fn read_number(bytes: &mut &[u8], most: u64) -> Option<u64>
    ensures told { read_told (λ n. n) result bytes.new.now ≡ or_number 14 (up_to most bytes.old.now) }
    ensures within { IfSome result (λ n. n ≤ most) }
{
    let group = u64::from(*bytes.split_off_first()?);
    if group < 128 {
        return (group <= most).then_some(group);
    }
    if most < 128 {
        return None;
    }
    let high = read_number(bytes, most / 128)?;
    if high == 0 {
        return None;
    }
    let number = group - 128 + 128 * high;
    (number <= most).then_some(number)
}

// So many numbers, one after the other, each not above the most.
pub fn read_numbers<const N: usize>(bytes: &mut &[u8], most: u64) -> Option<[u64; N]>
    ensures told { read_told (λ l. l) result bytes.new.now ≡ or_number 14 (several N most bytes.old.now) }
    ensures within { IfSome result (λ l. EachIndex l (λ k. slice_index l k ≤ most)) }
{
    let mut values = [0; N];
    for value in &mut values {
        *value = read_number(bytes, most)?;
    }
    Some(values)
}

// Writes a number from out[at] on, as print's writers do; the place after it. (What is left of the number ends the loop; the place only follows.)
pub fn write_number(out: &mut [u8], at: usize, n: u64) -> usize
    requires { at + length (whole n) ≤ length out.old }
    ensures { Wrote (whole n) out.old at out.new result }
{
    let mut left = n;
    let mut i = at;
    while 128 <= left {
        out[i] = (left % 128 + 128) as u8;
        left = left / 128;
        i += 1;
    }
    out[i] = left as u8;
    i + 1
}

// Writes numbers, one after the other.
pub fn write_numbers(out: &mut [u8], at: usize, values: &[u64]) -> usize
    requires { at + length (numbers values.now) ≤ length out.old }
    ensures { Wrote (numbers values.now) out.old at out.new result }
{
    let mut next = at;
    for value in values {
        next = write_number(out, next, *value);
    }
    next
}
