// A sheet that is written: its two buffers, which are lent, and how much of them is used.
ghost use Rattle.std.specs.Prelude.{◌≡◌, ◌+◌, ◌≤◌, ◌<◌, length, get_or};

use crate::numbers::{Pair, Used, pair_at};

// The rows and the names of a sheet. A pair's numbers are u32, so the names are no longer than the paper has it.
#[derive(Drop)]
pub struct SheetWriter<'a> {
    pub rows: &'a mut [u32],
    pub names: &'a mut [u8],
    pub used: Used,
    ghost few: { length names.now ≤ 65536 },
}

impl SheetWriter<'_> {
    // The rows, to be read. A function, since of rows that are lent by `&` out of a `&mut` writer the proofs keep the length alone.
    pub fn as_rows(&self) -> &[u32]
        ensures { result.now ≡ self.now.rows.now }
    {
        self.rows
    }

    // The pair whose two numbers stand from `i`.
    pub fn pair_at(&self, i: usize) -> Pair
        requires { i + 1 < length self.now.rows.now }
        ensures { (result.at ≡ get_or self.now.rows.now i 0) × (result.len ≡ get_or self.now.rows.now (i + 1) 0) }
    {
        pair_at(self.rows, i)
    }
}
