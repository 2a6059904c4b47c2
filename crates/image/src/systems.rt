// A user system in an image: type code, name, offsets, turns, predecessor place.
ghost use Rattle.std.specs.Prelude.{◌+◌, ◌≤◌, ◌<◌, ◌^◌, ◌≡◌, true, nat_abs, length, IfSome};
ghost use Rattle.model.specs.Limits.{name_limit};
ghost use Rattle.model.specs.Told.{or_number};
ghost use Rattle.model.specs.Image.{system_bytes, read_placed, read_system};
ghost use Rattle.model.specs.Stored.{bytes_of, system_of, name_shaped};
ghost use Rattle.print.specs.Over.{Wrote};
ghost use Rattle.image.specs.Views.{read_told};

use crate::codes::{kind_coded, signed_code, signed_of};
use crate::names::read_name;
use crate::numbers::{read_numbers, write_numbers};
use facts::kinds::code_of;
use facts::limits::OFFSET_LIMIT;
use model::{Kind, Name, System, Turns, Vec3};
use print::put_name;

// The most that a byte of the memory holds, and that an offset is coded as.
pub const MOST_BYTE: u64 = u8::MAX as u64;

const MOST_OFFSET: u64 = 2 * OFFSET_LIMIT;

// What comes after the name: offsets, turns, predecessor place. (`as u8`: each number is at most 255 by `read_numbers`' promise, and `try_from` would bring a refusal that cannot come.)
fn read_placed(bytes: &mut &[u8], kind: Kind, name: Name) -> Option<System>
    requires { name.len ≤ name_limit }
    ensures told { read_told system_of result bytes.new.now ≡ or_number 14 (read_placed kind (bytes_of name) bytes.old.now) }
    ensures shaped { IfSome result (λ s. name_shaped s ≡ true) }
{
    let [x, y, z] = read_numbers::<3>(bytes, MOST_OFFSET)?;
    let [u, v, w, pred] = read_numbers::<4>(bytes, MOST_BYTE)?;
    Some(System {
        kind,
        name,
        offset: Vec3 {
            x: signed_of(x),
            y: signed_of(y),
            z: signed_of(z),
        },
        turns: Turns {
            u: u as u8,
            v: v as u8,
            w: w as u8,
        },
        pred: pred as u8,
    })
}

// Takes a system off the front of the bytes.
pub fn read_system(bytes: &mut &[u8]) -> Option<System>
    ensures told { read_told system_of result bytes.new.now ≡ or_number 14 (read_system bytes.old.now) }
    ensures shaped { IfSome result (λ s. name_shaped s ≡ true) }
{
    let [code, len] = read_numbers::<2>(bytes, MOST_BYTE)?;
    let (kind, _) = kind_coded(code)?;
    let name = read_name(bytes, len)?;
    read_placed(bytes, kind, name)
}

// Writes a system from out[at] on; the place after it.
pub fn write_system(out: &mut [u8], at: usize, s: System) -> usize
    requires shaped { name_shaped s ≡ true }
    requires room { at + length (system_bytes (system_of s)) ≤ length out.old }
    requires small { (nat_abs s.offset.x < 2 ^ 62) × (nat_abs s.offset.y < 2 ^ 62) × (nat_abs s.offset.z < 2 ^ 62) }
    ensures { Wrote (system_bytes (system_of s)) out.old at out.new result }
{
    let o = s.offset;
    let t = s.turns;
    let head = [u64::from(code_of(s.kind)), u64::from(s.name.len)];
    let offsets = [signed_code(o.x), signed_code(o.y), signed_code(o.z)];
    let turned = [
        u64::from(t.u),
        u64::from(t.v),
        u64::from(t.w),
        u64::from(s.pred),
    ];
    let named_at = write_numbers(out, at, &head);
    let placed_at = put_name(out, named_at, s.name);
    let turned_at = write_numbers(out, placed_at, &offsets);
    write_numbers(out, turned_at, &turned)
}
