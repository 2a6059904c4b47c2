// A memory in an image: edition, number of systems, the systems, what is enabled.
ghost use Rattle.std.specs.Prelude.{◌+◌, ◌≤◌, ◌≡◌, true, map, length, take, IfSome};
ghost use Rattle.model.specs.Limits.{max_systems, buffer_limit};
ghost use Rattle.model.specs.Lists.{all, joined};
ghost use Rattle.model.specs.Told.{or_number};
ghost use Rattle.model.specs.Image.{system_bytes, image, read_systems, read_contents, read_memory};
ghost use Rattle.model.specs.Stored.{FineMemory, system_of, systems_of, memory_of, name_shaped, memory_shaped};
ghost use Rattle.print.specs.Over.{Wrote};
ghost use Rattle.image.specs.Views.{read_told};

use crate::enabled::{read_enabled, write_enabled};
use crate::numbers::{read_numbers, write_numbers};
use crate::systems::{MOST_BYTE, read_system, write_system};
use facts::limits::MAX_SYSTEMS;
use memory::factory::blank_system;
use model::{Memory, System};

// That a count or a length lies within its array is told by a clause at each reader: the stored types are those of the C interface, and hold any number.

// The edition that is written, and the only one that is read.
const EDITION: u64 = 1;

// Takes so many systems off the front of the bytes: the first of the array.
fn read_systems(bytes: &mut &[u8], count: usize) -> Option<[System; MAX_SYSTEMS]>
    requires { count ≤ max_systems }
    ensures told { read_told (λ l. map system_of (take count l)) result bytes.new.now ≡ or_number 14 (read_systems count bytes.old.now) }
    ensures shaped { IfSome result (λ l. all name_shaped (take count l) ≡ true) }
{
    let mut systems = [blank_system(); MAX_SYSTEMS];
    for system in &mut systems[..count] {
        *system = read_system(bytes)?;
    }
    Some(systems)
}

// What comes after the edition and the number of systems.
fn read_contents(bytes: &mut &[u8], count: usize) -> Option<Memory>
    requires { count ≤ max_systems }
    ensures told { read_told memory_of result bytes.new.now ≡ or_number 14 (read_contents count bytes.old.now) }
    ensures shaped { IfSome result (λ m. memory_shaped m ≡ true) }
{
    let systems = read_systems(bytes, count)?;
    let enabled = read_enabled(bytes)?;
    Some(Memory {
        systems,
        count: count as u8,
        enabled,
    })
}

// Takes a memory off the front of the bytes.
pub fn read_memory(bytes: &mut &[u8]) -> Option<Memory>
    ensures told { read_told memory_of result bytes.new.now ≡ or_number 14 (read_memory bytes.old.now) }
    ensures shaped { IfSome result (λ m. memory_shaped m ≡ true) }
{
    let [edition, listed] = read_numbers::<2>(bytes, MOST_BYTE)?;
    let count = listed as usize;
    if edition != EDITION {
        return None;
    }
    if MAX_SYSTEMS < count {
        return None;
    }
    read_contents(bytes, count)
}

fn write_systems(out: &mut [u8], at: usize, m: Memory) -> usize
    requires fine_memory { FineMemory m }
    requires room { at + length (joined (map system_bytes (systems_of m))) ≤ length out.old }
    ensures { Wrote (joined (map system_bytes (systems_of m))) out.old at out.new result }
{
    let systems = &m.systems[..m.count as usize];
    let mut next = at;
    for system in systems {
        next = write_system(out, next, *system);
    }
    next
}

// Writes the image of a memory from the start of the buffer; its length.
pub fn write_memory(m: Memory, out: &mut [u8]) -> usize
    requires fine_memory { FineMemory m }
    requires room { buffer_limit ≤ length out.old }
    ensures { Wrote (image (memory_of m)) out.old 0 out.new result }
{
    let listed_at = write_numbers(out, 0, &[EDITION, u64::from(m.count)]);
    let enabled_at = write_systems(out, listed_at, m);
    write_enabled(out, enabled_at, m.enabled)
}
