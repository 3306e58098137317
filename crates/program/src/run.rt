// What the `main` of each program runs.
ghost use Rattle.std.specs.Prelude.{◌≡◌, ◌≢◌, Ok, Err, OnOk, IfOk, IfErr};
ghost use Rattle.std.specs.IoError.{error_kind};

use crate::input;
use std::alloc::Global;
use std::io;
use std::io::{BufWriter, ErrorKind, Read, Write};

// Keeps the error of a call that got no memory, and passes over that of one that could not read or write.
pub fn pass_over_io<T: Drop>(done: io::Result<T>) -> io::Result<()>
    ensures kept { IfErr result (λ e. (done ≡ Err e) × (error_kind e ≡ ErrorKind.OutOfMemory)) }
    ensures passed { IfOk result (λ _. IfErr done (λ e. error_kind e ≢ ErrorKind.OutOfMemory)) }
{
    match done {
        Err(e) if e.kind() == ErrorKind::OutOfMemory => Err(e),
        _ => Ok(()),
    }
}

// Reads up to so many bytes and does the work on them. A read that fails ends the input: the work is done on what was read before. Where there is no memory for
// the input, no work is done. What the work wrote before it failed is written out, and why it failed is told before why that could not be written.
pub fn on_input<R: Read + Drop, W: Write + Drop, F>(
    alloc: Global,
    reader: R,
    most: u64,
    writer: W,
    work: F,
) -> io::Result<()>
where
    F: FnOnce(Global, &mut BufWriter<W>, &[u8]) -> io::Result<()>,
    requires { F.IsAlwaysCallable work }
    ensures { OnOk result ((out : _) × (input : _) × (after : _) × F.post work alloc out input (Ok tt) after) }
{
    let mut input = Vec::new(alloc);
    pass_over_io(input::read_input(&mut input, reader, most))?;
    let mut out = BufWriter::new(alloc, writer)?;
    let worked = work(alloc, &mut out, &input);
    let written = out.flush();
    worked?;
    written
}
