// The texts under the used pairs of a sheet's rows: each by itself has to be a text, and plain names are texts wherever they are cut.
ghost use Rattle.std.specs.Prelude.{◌≡◌, ◌∷◌, ◌||◌, ◌-◌, ◌*◌, ◌≤◌, true, length, take, drop, if◌then◌else◌};
ghost use Rattle.text.specs.Text.{every, is_plain};
ghost use Rattle.sheet.specs.Rows.{tens, text_at};
ghost use Rattle.rows.specs.Ten.{as_ten};
ghost use Rattle.rows.specs.Scan.{row_texts};

use crate::numbers::Pair;
use crate::part::SheetPart;
use crate::parts::part_of;
use crate::scan::RowTests;
use crate::ten::Ten;

// Whether the text under a pair is one, if the pair is used.
fn pair_is_text<R: RowTests>(used: bool, names: &[u8], pair: Pair) -> bool
    ensures { result ≡ (if used then R.tests.text (text_at names.now pair.at pair.len) else true) }
{
    !used || R::is_text(part_of(names, pair.at, pair.len))
}

fn row_is_text<R: RowTests>(names: &[u8], t: Ten) -> bool
    ensures { result ≡ row_texts R.tests names.now (as_ten t) }
{
    let used = R::used_pairs(t.tag, t.a);
    pair_is_text::<R>(1 <= used, names, t.pair(0))
        & pair_is_text::<R>(2 <= used, names, t.pair(1))
        & pair_is_text::<R>(3 <= used, names, t.pair(2))
}

// Cold: the names of most sheets are plain. Without the two attributes the test of a good sheet takes 353,990 instructions in the place of 330,019 at 4,000 rows,
// and 105,679 in the place of 101,756 on pain.001.001.09 (a library of xsd_good alone).
#[cold]
#[inline(never)]
fn rows_are_text<R: RowTests>(part: &SheetPart) -> bool
    ensures { result ≡ every (row_texts R.tests part.now.names.now) (tens (part.now.end - 1) (drop 10 part.now.rows.now)) }
{
    (1..part.end).all(|place| row_is_text::<R>(part.names, part.ten(place)))
}

// Whether the used names are plain, or else the text under each used pair is one.
pub fn names_test<R: RowTests>(part: &SheetPart, names_used: usize) -> bool
    requires { names_used ≤ length part.now.names.now }
    ensures { result ≡ (is_plain (take names_used part.now.names.now) || every (row_texts R.tests part.now.names.now) (tens (part.now.end - 1) (drop 10 part.now.rows.now))) }
{
    text::is_plain(&part.names[..names_used]) || rows_are_text::<R>(part)
}
