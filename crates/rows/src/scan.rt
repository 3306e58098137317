// One pass over the rows of a sheet behind row 0: each row's form and place in the order, the end of its pairs, and the last head. What is asked of a row is
// a trait: each sheet has tests of its own.
ghost use Rattle.std.specs.Prelude.{◌≡◌, ◌-◌, ◌≤◌, ◌^◌, ◌&&◌, ◌∷◌, drop};
ghost use Rattle.sheet.specs.Rows.{tens};
ghost use Rattle.sheet.specs.Form.{row_covers};
ghost use Rattle.rows.specs.Ten.{as_ten};
ghost use Rattle.rows.specs.Scan.{Tests, first_row, next_row, scanned_sheet};

use crate::form::{end_of, row_covers};
use crate::numbers::wide;
use crate::part::SheetPart;
use crate::ten::Ten;

// The tag of row 1, in both sheets.
const NAMESPACE: u32 = 1;

// The tests of a row. A head and a tag are two arguments, as in the definitions: a struct of both would be made for each row and taken apart in each test.
// Where the names stand so far, k, is an argument with a clause, and no field of a `Scan` that says it: the definitions make a `Scan` of any ten numbers, and row 1 is asked at 0
// before there is one. With the `Scan` handed on in the place of both numbers all was proved and went back with what it came with (docs/DECISIONS.md, 255).
pub trait RowTests {
    ghost tests: { Tests };

    // Whether a row behind row 1 has its form, may stand behind a head, or behind row 1 where no head came, and has its pairs in the names from k on. One
    // function, so that each sheet asks the table of its tags as it needs it.
    fn passes(head: u32, k: usize, t: Ten) -> bool
        requires { k ≤ 2 ^ 32 }
        ensures { result ≡ (tests.form (as_ten t) && tests.follows head t.tag && row_covers tests.pairs k (as_ten t)) };

    // How many pairs a row uses.
    fn used_pairs(tag: u32, a: u32) -> usize
        ensures { result ≡ tests.pairs tag a };

    // The head behind which the next row stands.
    fn head_after(head: u32, tag: u32) -> u32
        ensures { result ≡ tests.head_after head tag };

    // Whether a pair may name a text.
    fn is_text(s: &[u8]) -> bool
        ensures { result ≡ tests.text s.now };
}

// Of rows that passed: where their pairs end, and the tag of the last head, that of row 1 where no head came.
#[derive(Clone, Copy)]
pub struct Scan {
    pub end: usize,
    pub head: u32,
}

// The row of the namespace, whose pair may end at the limit at most.
fn first_row<R: RowTests>(limit: u32, t: Ten) -> Option<Scan>
    ensures { result ≡ first_row R.tests limit (as_ten t) }
{
    let end = end_of(0, t);
    let form = (t.tag == NAMESPACE) & (t.a == 0) & (t.b == 0) & (t.c == 0);
    if form & row_covers(R::used_pairs(t.tag, t.a), 0, t) & (end <= wide(limit)) {
        Some(Scan {
            end,
            head: NAMESPACE,
        })
    } else {
        None
    }
}

// A row behind it.
fn next_row<R: RowTests>(limit: u32, s: Scan, t: Ten) -> Option<Scan>
    requires { s.end ≤ 2 ^ 32 }
    ensures { result ≡ next_row R.tests limit s (as_ten t) }
{
    let end = end_of(s.end, t);
    if R::passes(s.head, s.end, t) & (end <= wide(limit)) {
        Some(Scan {
            end,
            head: R::head_after(s.head, t.tag),
        })
    } else {
        None
    }
}

// The rows of a part behind row 0, by the names used that row 0 gives. Row 1 is handed in: one of its numbers may be another than the sheet's.
pub fn scan_sheet<R: RowTests>(part: &SheetPart, row1: Ten, names_used: u32) -> Option<Scan>
    ensures { result ≡ scanned_sheet R.tests names_used (as_ten row1 ∷ tens (part.now.end - 2) (drop 20 part.now.rows.now)) }
{
    let mut s = first_row::<R>(names_used, row1)?;
    for place in 2..part.end {
        s = next_row::<R>(names_used, s, part.ten(place))?;
    }
    Some(s)
}
