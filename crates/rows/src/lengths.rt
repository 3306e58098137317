// The lengths that a call may be lent (paper 01, "Returned numbers", 1), and whether what row 0 says is used lies inside the buffers.
// Two lengths: nothing else of the buffers is asked.
ghost use Rattle.std.specs.Prelude.{◌≡◌, true, ◌&&◌, ◌*◌, ◌≤◌, leb};
ghost use Rattle.sheet.specs.Limits.{names_limit};
ghost use Rattle.sheet.specs.Lengths.{sheet_lengths, tape_lengths};
ghost use Rattle.rows.specs.Lengths.{parts_fit};

use crate::numbers::wide;
use sheet::limits;

// "a rows length not a multiple of 10, below 20 or above 40,960"
#[tactic(auto, unfolding(sheet::specs::Lengths::sheet_lengths))]
pub fn rows_length(rows: usize) -> bool
    ensures { result ≡ sheet_lengths rows 0 }
{
    (rows % limits::ROW == 0) & (limits::LEAST_ROWS <= rows) & (rows <= limits::ROWS)
}

// "names above 65,536"
pub fn names_length(names: usize) -> bool
    ensures { result ≡ leb names names_limit }
{
    names <= limits::NAMES
}

#[tactic(auto, unfolding(sheet::specs::Lengths::sheet_lengths))]
pub fn sheet_lengths(rows: usize, names: usize) -> bool
    ensures { result ≡ sheet_lengths rows names }
{
    rows_length(rows) & names_length(names)
}

// Those of two sheets: the one that is read and the one that is written.
pub fn both_sheet_lengths(rows: usize, names: usize, to_rows: usize, to_names: usize) -> bool
    ensures { result ≡ (sheet_lengths rows names && sheet_lengths to_rows to_names) }
{
    sheet_lengths(rows, names) & sheet_lengths(to_rows, to_names)
}

// Those of a tape.
#[tactic(auto, unfolding(sheet::specs::Lengths::tape_lengths))]
pub fn tape_lengths(text: usize, marks: usize) -> bool
    ensures { result ≡ tape_lengths text marks }
{
    (text <= limits::TEXT) & (marks <= limits::MARKS)
}

// Whether the used parts lie inside buffers of these lengths. Rows used counts row 0 and row 1.
#[tactic(auto, unfolding(crate::specs::Lengths::parts_fit, sheet::specs::Lengths::fits))]
pub fn parts_fit(rows_used: u32, names_used: u32, rows: usize, names: usize) -> bool
    ensures fits { result ≡ parts_fit rows_used names_used rows names }
    ensures inside { result ≡ true → (2 ≤ rows_used) × (10 * rows_used ≤ rows) × (names_used ≤ names) }
{
    (2 <= rows_used) & ((limits::ROW * wide(rows_used) <= rows) & (wide(names_used) <= names))
}
