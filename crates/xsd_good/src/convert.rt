// Order 7's conversion of sheets that were stored before the order.
ghost use Rattle.std.specs.Prelude.{◌≡◌};
ghost use Rattle.sheet.specs.Calls.{sheet};
ghost use Rattle.rows.specs.Answers.{answer_of};
ghost use Rattle.xsd_types.specs.Convert.{ConvertIs};

use crate::{count, is_bare_good};
use rows::answers::Answer;
use rows::lengths::sheet_lengths;
use sheet::refusal::Refusal;

// Fills in the count of a sheet that has 0 there, or the right count. Under 1 and 2 nothing is changed.
pub fn convert(rows: &mut [u32], names: &[u8]) -> Answer
    ensures { ConvertIs (sheet rows.old names.now) (answer_of result) (sheet rows.new names.now) }
{
    if !sheet_lengths(rows.len(), names.len()) {
        return Err(Refusal::BadLength.into());
    }
    if !is_bare_good(rows, names) {
        return Err(Refusal::NotGood.into());
    }
    let count = count::count_of(rows, names);
    let stored = count::count_in(rows);
    if !((stored == 0) | (stored == count)) {
        return Err(Refusal::NotGood.into());
    }
    rows[count::COUNT] = count as u32;
    Ok(0)
}
