// Order 7's count: a of row 1 is how many finished simple types lowering refuses by 13.
// That the sheet is good but for its count (`bare_good`), and that its used rows lie inside the buffer, are clauses: the functions are lent two buffers, as the calls are, and
// a type that says it of them would ask more of callers.
ghost use Rattle.std.specs.Prelude.{◌≡◌, true, false, ◌*◌, ◌≤◌, ◌<◌, length, get_or, MatchOption};
ghost use Rattle.sheet.specs.Rows.{ten};
ghost use Rattle.sheet.specs.Calls.{sheet};
ghost use Rattle.sheet.specs.Form.{words, rows_used_in};
ghost use Rattle.xsd_types.specs.Row0.{row0_from};
ghost use Rattle.xsd_types.specs.Good.{bare_good};
ghost use Rattle.xsd_types.specs.Count.{count_of, bare, state_of, good};
ghost use Rattle.xsd_good.specs.End.{finished_end, HeadIs, FinishedAt};

use crate::{row0, scan};
use rows::numbers::wide;
use rows::part::SheetPart;
use xsd_refused::count_refused;
use xsd_types::contexts;

// Where the count stands: row 1 begins behind ten numbers, and a is the eighth of a row.
pub const COUNT: usize = 17;

// The count that a sheet has.
pub fn count_in(rows: &[u32]) -> usize
    requires { 17 < length rows.now }
    ensures { result ≡ get_or rows.now 17 0 }
{
    wide(rows[COUNT])
}

// Where the finished items end, by row 0.
pub fn finished_place(rows: &[u32]) -> usize
    requires { (10 ≤ length rows.now) × (10 * rows_used_in (ten rows.now) ≤ length rows.now) }
    ensures place { result ≡ finished_end rows.now (row0_from (ten rows.now)).context (rows_used_in (ten rows.now)) }
    ensures words { words rows.now ≡ true }
{
    let z = row0::row0_at(rows);
    scan::finished_end(rows, z.context, z.rows_used as usize)
}

// The same where the open type's head is known: it is not looked for again.
#[tactic(auto, unfolding(crate::specs::End::finished_end))]
pub fn finished_behind(rows: &[u32], head: usize) -> usize
    requires { (10 ≤ length rows.now) × HeadIs rows.now head }
    ensures { FinishedAt rows.now result }
{
    let z = row0::row0_at(rows);
    if contexts::SIMPLE_TYPE <= z.context {
        head
    } else {
        z.rows_used as usize
    }
}

// The count that a sheet should have, if it is good but for its count, by where its finished items end.
fn count_to(rows: &[u32], names: &[u8], end: usize) -> usize
    requires { (bare_good (bare (sheet rows.now names.now)) ≡ true) × FinishedAt rows.now end }
    ensures count { result ≡ count_of (state_of (sheet rows.now names.now)) }
    ensures few { result ≤ length rows.now }
{
    let part = SheetPart { rows, names, end };
    count_refused(&part, 2)
}

// The same with the place looked for.
pub fn count_of(rows: &[u32], names: &[u8]) -> usize
    requires { bare_good (bare (sheet rows.now names.now)) ≡ true }
    ensures count { result ≡ count_of (state_of (sheet rows.now names.now)) }
    ensures few { result ≤ length rows.now }
{
    let end = finished_place(rows);
    count_to(rows, names, end)
}

// Where the finished items end, if the count of a sheet that is good otherwise is right.
pub fn counted_place(rows: &[u32], names: &[u8]) -> Option<usize>
    requires { bare_good (bare (sheet rows.now names.now)) ≡ true }
    ensures { MatchOption result (good (sheet rows.now names.now) ≡ false) (λ end. (good (sheet rows.now names.now) ≡ true) × FinishedAt rows.now end) }
{
    let end = finished_place(rows);
    (count_in(rows) == count_to(rows, names, end)).then_some(end)
}
