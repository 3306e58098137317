// Clearing a schema sheet.
ghost use Rattle.std.specs.Prelude.{◌≤◌, ◌≡◌, eqb};
ghost use Rattle.sheet.specs.Calls.{sheet};
ghost use Rattle.rows.specs.Answers.{answer_of};
ghost use Rattle.xsd_types.specs.State.{first_state};
ghost use Rattle.xsd_types.specs.Rows.{row0};
ghost use Rattle.xsd_types.specs.Clear.{ClearIs};
ghost use Rattle.xsd_good.specs.Row0.{as_row0};

use crate::row0;
use crate::row0::Row0;
use rows::answers::Answer;
use rows::lengths::sheet_lengths;
use rows::row;
use sheet::limits;
use sheet::refusal::Refusal;
use xsd_types::{contexts, tags};

// Row 0 of a cleared sheet: two rows are used, and nothing was read.
fn cleared_row0(choice: u32) -> Row0
    requires { choice ≤ 1 }
    ensures { as_row0 result ≡ row0 (first_state (eqb choice 1)) }
{
    Row0 {
        first: 0,
        rows_used: 2,
        names_used: 0,
        context: contexts::NONE,
        nesting: 0,
        root_seen: 0,
        events: 0,
        open_tags: 0,
        extension: 0,
        choice,
    }
}

// Clears a sheet: two rows, tag 1 in row 1, the choice in row 0, all else zero. Under 1 nothing is changed.
pub fn clear(rows: &mut [u32], names: &mut [u8], choice: u32) -> Answer
    ensures { ClearIs choice (sheet rows.old names.old) (answer_of result) (sheet rows.new names.new) }
{
    if !(sheet_lengths(rows.len(), names.len()) & (choice <= 1)) {
        return Err(Refusal::BadLength.into());
    }
    rows.fill(0);
    names.fill(0);
    row::put_row(rows, 0, row0::row0_numbers(cleared_row0(choice)));
    rows[limits::ROW] = tags::NAMESPACE;
    Ok(0)
}
