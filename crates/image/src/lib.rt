// The saved image: the bytes of a well-formed memory, and the well-formed memory whose bytes these are.
#![tactic(auto)]

ghost use Rattle.std.specs.Prelude.{◌≤◌, ◌≡◌, true, length};
ghost use Rattle.model.specs.Limits.{buffer_limit};
ghost use Rattle.model.specs.WellFormed.{memory_fine};
ghost use Rattle.model.specs.Image.{image};
ghost use Rattle.model.specs.Machine.{written};
ghost use Rattle.model.specs.Stored.{memory_of, memory_shaped};
ghost use Rattle.image.specs.Accepted.{Answers};

use crate::memories::{read_memory, write_memory};
use facts::refusals::Refusal;
use memory::fine::memory_fine;
use model::Memory;

mod codes;
mod enabled;
mod memories;
mod names;
mod numbers;
mod systems;

// Writes the image from the start of the buffer, in one pass; its length.
pub fn write(m: Memory, out: &mut [u8]) -> usize
    requires { (memory_shaped m ≡ true) × (memory_fine (memory_of m) ≡ true) × (buffer_limit ≤ length out.old) }
    ensures { (out.new ≡ written (image (memory_of m)) out.old) × (result ≡ length (image (memory_of m))) }
{
    write_memory(m, out)
}

// The memory whose image the bytes are. Any bytes: they are read once, in order, and then the memory is judged.
pub fn read(bytes: &[u8]) -> Result<Memory, Refusal>
    ensures { Answers bytes.now result }
{
    let mut left = bytes;
    let memory = read_memory(&mut left).ok_or(Refusal::NoImage)?;
    if !left.is_empty() {
        return Err(Refusal::NoImage);
    }
    if !memory_fine(memory) {
        return Err(Refusal::NoImage);
    }
    Ok(memory)
}
