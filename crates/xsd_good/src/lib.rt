// The test of a good schema sheet. `forms`: the tests of one row; `row0`: row 0 and its tests; `scan`: what is read of all rows; `count`: order 7's count;
// `clear`: clearing; `convert`: order 7's conversion.
#![tactic(auto)]

pub mod clear;
pub mod convert;
pub mod count;
pub mod forms;
pub mod row0;
pub mod scan;

ghost use Rattle.std.specs.Prelude.{◌≡◌, true, false, MatchOption};
ghost use Rattle.sheet.specs.Calls.{sheet};
ghost use Rattle.xsd_types.specs.Good.{bare_good};
ghost use Rattle.xsd_types.specs.Count.{bare, good};
ghost use Rattle.xsd_good.specs.End.{FinishedAt};

use crate::forms::row::SchemaRow;
use crate::row0::tests;
use rows::lengths::parts_fit;
use rows::part::SheetPart;
use rows::scan::scan_sheet;
use rows::{behind, used};
use sheet::limits;

// Whether the sheet is good but for its count: a of row 1 is not looked at.
pub fn is_bare_good(rows: &[u32], names: &[u8]) -> bool
    ensures { result ≡ bare_good (bare (sheet rows.now names.now)) }
{
    if rows.len() < limits::LEAST_ROWS {
        return false;
    }
    let z = row0::row0_at(rows);
    if !parts_fit(z.rows_used, z.names_used, rows.len(), names.len()) {
        return false;
    }
    let part = SheetPart {
        rows,
        names,
        end: z.rows_used as usize,
    };
    let names_end = z.names_used as usize;
    let row1 = scan::bare_row1(rows);
    // What asks no row's form is asked before the pass over the rows, so that little is kept on the stack beside the pass: a reading, whose frame lies below this one, takes
    // 1,056 bytes of stack otherwise, where the header says 1,024 (docs/DECISIONS.md, 192).
    let apart = tests::row0_form(z)
        & behind::zeros_behind(rows, names, part.end, names_end)
        & tests::limits(z)
        & tests::root_test(z)
        & tests::nesting_test(z)
        & scan::events_test(&part, z.events);
    let Some(s) = scan_sheet::<SchemaRow>(&part, row1, z.names_used) else {
        return false;
    };
    // The texts are asked behind the pass, where the pairs are known to lie end to end: before it, pairs that overlap would be read again for each row.
    apart
        & (s.end == names_end)
        & used::names_test::<SchemaRow>(&part, names_end)
        & tests::context_test(z.context, s.head)
        & tests::extension_test(z, s.head)
}

// Where the finished items of a good sheet end, None where the sheet is not good: its count is asked last, since counting needs the rest.
pub fn good_end(rows: &[u32], names: &[u8]) -> Option<usize>
    ensures { MatchOption result (good (sheet rows.now names.now) ≡ false) (λ end. (good (sheet rows.now names.now) ≡ true) × FinishedAt rows.now end) }
{
    if !is_bare_good(rows, names) {
        return None;
    }
    count::counted_place(rows, names)
}

// Whether the sheet is good.
pub fn is_good(rows: &[u32], names: &[u8]) -> bool
    ensures { result ≡ good (sheet rows.now names.now) }
{
    good_end(rows, names).is_some()
}
