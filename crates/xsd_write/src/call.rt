// The call.
ghost use Rattle.std.specs.Prelude.{true, ◌&&◌, ◌≡◌, [], ◌≤◌, leb, length};
ghost use Rattle.sheet.specs.Rows.{filled};
ghost use Rattle.sheet.specs.Lengths.{sheet_lengths};
ghost use Rattle.sheet.specs.Limits.{text_limit};
ghost use Rattle.sheet.specs.Calls.{sheet};
ghost use Rattle.xsd_types.specs.Count.{good, state_of};
ghost use Rattle.xsd_written.specs.Call.{WriteIs, unheld_from, text_written, write_state};
ghost use Rattle.rows.specs.Answers.{answer_of};
ghost use Rattle.xsd_write.specs.Parts.{rows_of_part, part_text};
ghost use Rattle.xsd_write.specs.Steps.{wrote, finished};

use crate::body::put_schema;
use crate::held::first_unheld;
use rows::answers::{Answer, Refused};
use rows::lengths;
use rows::part::SheetPart;
use sheet::limits;
use sheet::refusal::Refusal;
use xsd_good::{count, row0};

fn write_lengths(rows: usize, names: usize, text: usize) -> bool
    ensures { result ≡ (sheet_lengths rows names && leb text text_limit) }
{
    lengths::sheet_lengths(rows, names) & (text <= limits::TEXT)
}

// From 23 on.
fn write_held(part: &SheetPart, text: &mut [u8]) -> Answer
    requires end_at_least { 2 ≤ part.now.end }
    requires text_value { text.old ≡ filled (length text.old) [] }
    ensures { wrote (answer_of result) text.new ≡ text_written (part_text part.now) (length text.old) }
{
    let used = put_schema(text, part);
    if text.len() < used {
        text.fill(0);
        return Err(Refusal::TextRoom.into());
    }
    Ok(used)
}

// From 12 on the text is zero behind what is written, so it is cleared before the tests.
fn write_finished(part: &SheetPart, root_seen: bool, text: &mut [u8]) -> Answer
    requires { 2 ≤ part.now.end }
    ensures { wrote (answer_of result) text.new ≡ finished root_seen (unheld_from 1 (rows_of_part part.now 1)) (part_text part.now) (length text.old) }
{
    text.fill(0);
    if !root_seen {
        return Err(Refusal::NoRoot.into());
    }
    match first_unheld(part) {
        Some(place) => Err(Refused {
            refusal: Refusal::NoValue,
            place,
        }),
        None => write_held(part, text),
    }
}

fn write_good(rows: &[u32], names: &[u8], text: &mut [u8]) -> Answer
    requires { good (sheet rows.now names.now) ≡ true }
    ensures { wrote (answer_of result) text.new ≡ write_state (state_of (sheet rows.now names.now)) (length text.old) }
{
    let z = row0::row0_at(rows);
    let end = count::finished_place(rows);
    let part = SheetPart { rows, names, end };
    write_finished(&part, z.root_seen == 1, text)
}

// Writes the finished part of a schema sheet as schema text. Under 1 and 2 the text is left, under 12, 22 and 23 it is zero.
pub fn write_back(rows: &[u32], names: &[u8], text: &mut [u8]) -> Answer
    ensures { WriteIs (sheet rows.now names.now) text.old (answer_of result).number (answer_of result).place text.new }
{
    if !write_lengths(rows.len(), names.len(), text.len()) {
        return Err(Refusal::BadLength.into());
    }
    if !xsd_good::is_good(rows, names) {
        return Err(Refusal::NotGood.into());
    }
    write_good(rows, names, text)
}
