// Whether XML can hold the values of the rows in attributes: 22.
ghost use Rattle.std.specs.Prelude.{◌≡◌, true, take, if◌then◌else◌};
ghost use Rattle.text.specs.Text.{every};
ghost use Rattle.sheet.specs.Rows.{text_at};
ghost use Rattle.xml.specs.Values.{is_in_value};
ghost use Rattle.xsd_written.specs.Call.{holds, unheld_from};
ghost use Rattle.xsd_write.specs.Texts.{as_row};
ghost use Rattle.xsd_write.specs.Parts.{rows_of_part};
ghost use Rattle.xsd_write.specs.Steps.{unheld_of};

use crate::part::Row;
use rows::numbers::Pair;
use rows::part::SheetPart;
use rows::parts::part_of;
use text::has_byte;
use xml_parts::classes::Classes;
use xml_parts::values::{is_value, value_run};
use xsd_good::forms::row::used_pairs;

// Between the quotes that are written around it: "quotes double unless the value has one".
fn holds(classes: &Classes, value: &[u8]) -> bool
    ensures { result ≡ holds value.now }
{
    if has_byte(value, 34) {
        return is_value(classes, value, 39);
    }
    is_value(classes, value, 34)
}

// Whether the text under a pair is held, if the pair is used. The first `clear` bytes of the names need no look.
fn pair_holds(classes: &Classes, names: &[u8], clear: usize, used: bool, pair: Pair) -> bool
    requires { every is_in_value (take clear names.now) ≡ true }
    ensures { result ≡ (if used then holds (text_at names.now pair.at pair.len) else true) }
{
    if !used {
        return true;
    }
    if (pair.at <= clear) && (pair.len <= clear - pair.at) {
        return true;
    }
    holds(classes, part_of(names, pair.at, pair.len))
}

fn row_holds(classes: &Classes, clear: usize, row: Row) -> bool
    requires { every is_in_value (take clear row.names.now) ≡ true }
    ensures { result ≡ every holds (as_row row.entry).texts }
{
    let t = row.numbers;
    let used = used_pairs(t.tag, t.a);
    pair_holds(classes, row.names, clear, 1 <= used, t.pair(0))
        && pair_holds(classes, row.names, clear, 2 <= used, t.pair(1))
        && pair_holds(classes, row.names, clear, 3 <= used, t.pair(2))
}

// The row of the first value that XML cannot hold, from row 1, the namespace, up to the end.
fn unheld_from(classes: &Classes, part: &SheetPart) -> Option<usize>
    ensures { unheld_of result ≡ unheld_from 1 (rows_of_part part.now 1) }
{
    let clear = value_run(classes, part.names, 0);
    (1..part.end).find(|place| !row_holds(classes, clear, Row::at(part, *place)))
}

pub fn first_unheld(part: &SheetPart) -> Option<usize>
    ensures { unheld_of result ≡ unheld_from 1 (rows_of_part part.now 1) }
{
    let classes = Classes::new();
    unheld_from(&classes, part)
}
