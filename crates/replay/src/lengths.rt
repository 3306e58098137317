// Sheets and tapes of given lengths. A sheet is full of sevens at first, and stays so where clearing refuses its lengths; a text is all
// sevens; the marks are empty tags with an empty name, four numbers each.
use crate::sheets::{self, Asked, Lent, Task};
use program::buffers::Buffers;
use rows::numbers::wide;
use sheet::limits::{MARKS, NAMES, ROW, ROWS, TEXT};
use std::alloc::{AllocError, Global};
use std::io;
use std::io::Write;
use tape::pairs::mark_at;
use xsd_parser::kinds::Kind;

// The mark at a place: each tag is empty, with no attribute and an empty pair at 0.
fn tag_mark(at: usize) -> u32 {
    if at % 4 == 0 { Kind::Empty as u32 } else { 0 }
}

// The marks, as many as are asked for.
fn tags_of(alloc: Global, count: usize) -> Result<Vec<u32>, AllocError> {
    (0..count).map(tag_mark).collect(alloc)
}

// The lengths of the rows, the names, the text and the marks; each is at most one step past its limit.
pub fn write_lengths<W: Write>(
    alloc: Global,
    out: &mut W,
    task: Task,
    lengths: &[u32],
) -> io::Result<()> {
    let text = vec![in alloc; 7u8; wide(mark_at(lengths, 2)).min(TEXT + 1)]?;
    let marks = tags_of(alloc, wide(mark_at(lengths, 3)).min(MARKS + 1))?;
    let asked = Asked {
        task,
        text: &text,
        numbers: &marks,
    };
    let lent = Lent {
        rows: wide(mark_at(lengths, 0)),
        names: wide(mark_at(lengths, 1)),
    };
    let mut sheet = Buffers::filled(alloc, 7, ROWS + ROW, NAMES + 1)?;
    sheets::write_part(out, asked, &mut sheet, lent)
}
