// What is enabled, in an image: a number that tells one system from a pair, and the places, group by group.
ghost use Rattle.std.specs.Prelude.{◌+◌, ◌≤◌, ◌≡◌, length};
ghost use Rattle.model.specs.Told.{or_number};
ghost use Rattle.model.specs.Image.{enabled_bytes, read_enabled};
ghost use Rattle.print.specs.Over.{Wrote};
ghost use Rattle.image.specs.Views.{read_told};

use crate::numbers::{read_number, read_numbers, write_numbers};
use crate::systems::MOST_BYTE;
use model::{Enabled, OperatingPart};

// Takes what is enabled off the front of the bytes. The number before the operating part says whether it is a pair.
pub fn read_enabled(bytes: &mut &[u8]) -> Option<Enabled>
    ensures { read_told (λ e. e) result bytes.new.now ≡ or_number 14 (read_enabled bytes.old.now) }
{
    if read_number(bytes, 1)? == 0 {
        let [p, o, l] = read_numbers::<3>(bytes, MOST_BYTE)?;
        return Some(Enabled {
            operating: OperatingPart::Single(p as u8),
            orientational: o as u8,
            levelling: l as u8,
        });
    }
    let [w, t, o, l] = read_numbers::<4>(bytes, MOST_BYTE)?;
    Some(Enabled {
        operating: OperatingPart::Pair(w as u8, t as u8),
        orientational: o as u8,
        levelling: l as u8,
    })
}

// Writes what is enabled from out[at] on; the place after it.
pub fn write_enabled(out: &mut [u8], at: usize, e: Enabled) -> usize
    requires { at + length (enabled_bytes e) ≤ length out.old }
    ensures { Wrote (enabled_bytes e) out.old at out.new result }
{
    let o = u64::from(e.orientational);
    let l = u64::from(e.levelling);
    match e.operating {
        OperatingPart::Single(p) => write_numbers(out, at, &[0, u64::from(p), o, l]),
        OperatingPart::Pair(w, t) => write_numbers(out, at, &[1, u64::from(w), u64::from(t), o, l]),
    }
}
