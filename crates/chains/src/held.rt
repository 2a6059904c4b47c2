// What is held by an array of which the first so many count: a memory's systems, a name's bytes.
ghost use Rattle.std.specs.Prelude.{◌≡◌, take};

// A count beyond the array means the whole of it.
pub fn held<T>(all: &[T], count: u8) -> &[T]
    ensures { result.now ≡ take count all.now }
{
    &all[..all.len().min(count as usize)]
}
