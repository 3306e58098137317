// The reading call: a piece of a tape read into a schema sheet.
#![tactic(auto)]

pub mod carry;
pub mod event;
pub mod records;

ghost use Rattle.std.specs.Prelude.{◌&&◌, ◌≡◌};
ghost use Rattle.sheet.specs.Lengths.{sheet_lengths, tape_lengths};
ghost use Rattle.sheet.specs.Calls.{sheet};
ghost use Rattle.rows.specs.Answers.{answer_of};
ghost use Rattle.xsd_good.specs.End.{HeadIs, FinishedAt};
ghost use Rattle.xsd_parser.specs.Read.{ReadIs};
ghost use Rattle.xsd_read.specs.Good.{GoodSheet, GoodRead, CountedSheet, CountedRead};

use crate::records::{ReadTo, read_records};
use rows::answers::Answer;
use rows::part::SheetPart;
use rows::writer::SheetWriter;
use rows::{lengths, row};
use sheet::refusal::Refusal;
use tape::view::View;
use xsd_good::count;
use xsd_refused::count_refused;

// Whether the lengths of a sheet's and a tape's buffers are as the paper has them.
fn read_lengths(rows: usize, names: usize, text: usize, marks: usize) -> bool
    ensures { result ≡ (sheet_lengths rows names && tape_lengths text marks) }
{
    lengths::sheet_lengths(rows, names) & lengths::tape_lengths(text, marks)
}

// Reads the piece into a good sheet that has 0 for its count, and sets its row 0 anew. The open type's head is known before and behind it.
fn read_good(rows: &mut [u32], names: &mut [u8], text: &[u8], marks: &[u32], known: usize) -> ReadTo
    requires { GoodSheet rows.old names.old text.now × HeadIs rows.old known }
    ensures read { GoodRead rows.old names.old text.now marks.now (answer_of result.answer) (sheet rows.new names.new) }
    ensures head { HeadIs rows.new result.progress.head }
{
    let from = xsd_progress::progress_by(rows, known);
    let used = xsd_progress::used_of(rows);
    let mut sheet = SheetWriter { rows, names, used };
    let to = read_records(&mut sheet, View { text, marks }, from);
    let row0 = xsd_progress::row0_of(to.progress, sheet.used);
    row::put_row0(rows, row0);
    to
}

// Order 7: the count is taken out, so that what reads knows of none, and is set again at the end. Items are only added, so the rows behind those that were
// finished before are counted alone. The calls before the end see the sheet as it was before the order.
fn read_counted(
    rows: &mut [u32],
    names: &mut [u8],
    text: &[u8],
    marks: &[u32],
    from: usize,
) -> Answer
    requires { CountedSheet rows.old names.old text.now × FinishedAt rows.old from }
    ensures { CountedRead rows.old names.old text.now marks.now (answer_of result) (sheet rows.new names.new) }
{
    let before = count::count_in(rows);
    rows[count::COUNT] = 0;
    let to = read_good(rows, names, text, marks, from);
    let end = count::finished_behind(rows, to.progress.head);
    let more = count_refused(&SheetPart { rows, names, end }, from);
    rows[count::COUNT] = (before + more) as u32;
    to.answer
}

// Reads a piece of a tape into a schema sheet. Under 1 and 2 nothing is changed; where a record is refused, the sheet holds the state
// after the events before it.
pub fn read(rows: &mut [u32], names: &mut [u8], text: &[u8], marks: &[u32]) -> Answer
    ensures { ReadIs (sheet rows.old names.old) text.now marks.now (answer_of result) (sheet rows.new names.new) }
{
    if !read_lengths(rows.len(), names.len(), text.len(), marks.len()) {
        return Err(Refusal::BadLength.into());
    }
    let Some(from) = xsd_good::good_end(rows, names) else {
        return Err(Refusal::NotGood.into());
    };
    read_counted(rows, names, text, marks, from)
}
