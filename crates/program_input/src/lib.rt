// What a program reads, as far as the program has a use for it.
#![tactic(auto)]

ghost use Rattle.std.specs.Prelude.{◌≡◌, IfOk, IfSome, take};

use std::alloc::Global;
use std::io;
use std::io::Read;

// All that a reader has left, or its first `limit` bytes.
pub fn read<R: Read + Drop>(alloc: Global, reader: R, limit: usize) -> io::Result<Vec<u8>>
    ensures { IfSome (R.remaining reader) (λ s. IfOk result (λ bytes. bytes.items ≡ take limit s)) }
{
    let mut bytes = Vec::new(alloc);
    reader.take(limit as u64).read_to_end(&mut bytes)?;
    Ok(bytes)
}
