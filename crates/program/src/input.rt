// The input of a program.
ghost use Rattle.std.specs.Prelude.{◌≡◌, ◌++◌, OnOk, IfSome, take};
ghost use Rattle.std.specs.Io.{StartsWith};

use std::io;
use std::io::Read;

// Adds what the reader still gives, up to so many bytes. Where a read fails, what was read before it is there.
pub fn read_input<R: Read + Drop>(input: &mut Vec<u8>, reader: R, most: u64) -> io::Result<usize>
    ensures all { OnOk result (IfSome (R.remaining reader) (λ given. input.new.items ≡ input.old.items ++ take most given)) }
    ensures begun { StartsWith input.new.items input.old.items }
{
    reader.take(most).read_to_end(input)
}
