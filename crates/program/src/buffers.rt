// A sheet's buffers.
ghost use Rattle.std.specs.Prelude.{◌≡◌, IfOk, replicate};

use std::alloc::{AllocError, Global};

// The rows and the names of a sheet.
#[derive(Drop)]
pub struct Buffers {
    pub rows: Vec<u32>,
    pub names: Vec<u8>,
}

impl Buffers {
    // So many numbers and so many bytes, each of them the given one.
    pub fn filled(alloc: Global, byte: u8, rows: usize, names: usize) -> Result<Buffers, AllocError>
        ensures rows { IfOk result (λ made. made.rows.items ≡ replicate rows byte) }
        ensures names { IfOk result (λ made. made.names.items ≡ replicate names byte) }
    {
        let rows = vec![in alloc; u32::from(byte); rows]?;
        let names = vec![in alloc; byte; names]?;
        Ok(Buffers { rows, names })
    }
}
