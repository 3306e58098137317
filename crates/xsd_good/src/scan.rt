// What is read of all rows of a schema sheet beside the pass of `rows::scan`: row 1 as the pass takes it, the numbers of events, the row where the last head
// stands, and where the finished items end.
ghost use Rattle.std.specs.Prelude.{◌≡◌, true, ◌-◌, ◌*◌, ◌≤◌, ◌^◌, length, set, drop, Some};
ghost use Rattle.sheet.specs.Rows.{ten, tens};
ghost use Rattle.sheet.specs.Form.{words};
ghost use Rattle.xsd_types.specs.Good.{events_test};
ghost use Rattle.rows.specs.Ten.{as_ten};
ghost use Rattle.xsd_good.specs.Heads.{head_row};
ghost use Rattle.xsd_good.specs.End.{finished_end};

use crate::forms::row;
use rows::numbers::row_tag;
use rows::part::SheetPart;
use rows::ten::{Ten, ten_at};
use sheet::limits;
use xsd_types::contexts;

// Row 1 with 0 for the count.
pub(crate) fn bare_row1(rows: &[u32]) -> Ten
    requires { 20 ≤ length rows.now }
    ensures { as_ten result ≡ ten (drop 10 (set rows.now 17 0)) }
{
    Ten {
        a: 0,
        ..ten_at(rows, limits::ROW)
    }
}

// Whether c of every row behind row 0 is 0 or the number of an event that is done.
pub fn events_test(part: &SheetPart, events: u32) -> bool
    requires { 2 ≤ part.now.end }
    ensures { result ≡ events_test events (tens (part.now.end - 1) (drop 10 part.now.rows.now)) }
{
    // 0 and the numbers below it: one test a row. Not `all`, which asks at each row whether to stop: 6 instructions a row in the place of 3.
    let limit = events.max(1);
    (1..part.end).fold(true, |below, place| below & (part.ten(place).c < limit))
}

// The last row before row n that is a head, 0 if there is none: in contexts 2 and 3 of a good sheet, the head of the open type. Its callers keep the number,
// with 0 for none, so an Option would be turned back at once. Rows and n are no part of a sheet: progress_of has no names.
pub fn open_head(rows: &[u32], n: usize) -> usize
    requires { 10 * n ≤ length rows.now }
    ensures { result ≡ head_row rows.now n }
{
    // `rposition` on 0..n was tried: std has no lemma on a range that is read from the back, and the proof did not close.
    for passed in 0..n {
        let place = n - 1 - passed;
        if row::is_head(row_tag(rows, place)) {
            return place;
        }
    }
    0
}

// Where the finished items end: at the open type's head, or at the end of the used rows. That the numbers are u32 is said since the laws of a
// good sheet ask for it, and the buffer's type gives it. Callers make the part of a sheet with the end that this gives, so it takes no part.
#[tactic(auto, unfolding(crate::specs::End::finished_end))]
pub fn finished_end(rows: &[u32], context: u32, rows_used: usize) -> usize
    requires { 10 * rows_used ≤ length rows.now }
    ensures place { result ≡ finished_end rows.now context rows_used }
    ensures words { words rows.now ≡ true }
{
    if contexts::SIMPLE_TYPE <= context {
        open_head(rows, rows_used)
    } else {
        rows_used
    }
}
