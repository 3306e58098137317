// The first rows of a sheet, with its names: what reads them asks for no more than that a place is among them.
ghost use Rattle.std.specs.Prelude.{◌≡◌, ◌+◌, ◌*◌, ◌≤◌, ◌<◌, length, drop, get_or};
ghost use Rattle.sheet.specs.Rows.{ten, text_at};
ghost use Rattle.rows.specs.Ten.{as_ten};

use crate::numbers::row_tag;
use crate::parts::pair_text;
use crate::ten::{Ten, ten_at};
use sheet::limits;

// The rows before `end`. No more than `within` is a ghost field: is_code_enum, is_refused and count_refused ask no more, and a narrower type would ask more of their callers.
#[derive(Clone, Copy)]
pub struct SheetPart<'a> {
    pub rows: &'a [u32],
    pub names: &'a [u8],
    pub end: usize,
    ghost within: { 10 * end ≤ length rows.now },
}

impl<'a> SheetPart<'a> {
    // The tag of the row at a place.
    pub fn tag(&self, place: usize) -> u32
        requires { place < self.now.end }
        ensures { result ≡ get_or self.now.rows.now (10 * place) 0 }
    {
        row_tag(self.rows, place)
    }

    // The row at a place as ten numbers.
    pub fn ten(&self, place: usize) -> Ten
        requires { place < self.now.end }
        ensures { as_ten result ≡ ten (drop (10 * place) self.now.rows.now) }
    {
        ten_at(self.rows, limits::ROW * place)
    }

    // The text under a pair, from 0 on, of the row at a place.
    pub fn text(&self, place: usize, pair: usize) -> &'a [u8]
        requires { (place < self.now.end) × (pair < 3) }
        ensures { result.now ≡ text_at self.now.names.now (get_or self.now.rows.now (10 * place + 2 * pair + 1) 0) (get_or self.now.rows.now (10 * place + 2 * pair + 2) 0) }
    {
        pair_text(self.rows, self.names, limits::ROW * place + 2 * pair + 1)
    }
}
