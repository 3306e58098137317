// The call.
ghost use Rattle.std.specs.Prelude.{◌≡◌, ◌≤◌, length, take, drop, ok_or, true};
ghost use Rattle.sheet.specs.Rows.{filled};
ghost use Rattle.sheet.specs.declared.refusal.Refusal.TheVariants.{Malformed};
ghost use Rattle.xml.specs.Document.{document_from, document};
ghost use Rattle.xml.specs.Call.{TapeIs};
ghost use Rattle.rows.specs.Answers.{answer_of};
ghost use Rattle.xml_text.specs.Answers.{FoundIs, StoredIs};

use crate::root::root;
use rows::answers::Answer;
use rows::lengths::tape_lengths;
use sheet::refusal::Refusal;
use xml_parts::classes::Classes;
use xml_parts::prolog::{misc, prolog};
use xml_parts::steps::starts;

// Zeros from a place on.
fn zero_marks(marks: &mut [u32], from: usize)
    requires { from ≤ length marks.old }
    ensures { marks.new ≡ filled (length marks.old) (take from marks.old) }
{
    marks[from..].fill(0);
}

// How many marks a well formed document needs, of which the first so many are stored.
fn document_from(classes: &Classes, text: &[u8], marks: &mut [u32], at: usize) -> Option<usize>
    requires { length text.now ≤ 65536 }
    ensures { FoundIs marks.old marks.new (ok_or result Malformed) (document_from at (drop at text.now)) }
{
    let whole = root(classes, text, marks, at)?;
    let end = misc(classes, text, whole.behind)?;
    if end < text.len() {
        return None;
    }
    Some(whole.used)
}

fn document(classes: &Classes, text: &[u8], marks: &mut [u32]) -> Result<usize, Refusal>
    requires { length text.now ≤ 65536 }
    ensures { FoundIs marks.old marks.new result (document text.now) }
{
    let Some(at) = prolog(classes, text) else {
        return Err(Refusal::Malformed);
    };
    if starts(text, at, b"<!DOCTYPE") {
        return Err(Refusal::Doctype);
    }
    document_from(classes, text, marks, at).ok_or(Refusal::Malformed)
}

// How many marks the tape of a text needs, where they are lent: the first so many are stored.
fn stored(text: &[u8], marks: &mut [u32]) -> Result<usize, Refusal>
    requires { length text.now ≤ 65536 }
    ensures { StoredIs text.now marks.old marks.new result }
{
    if !text::is_text(text) {
        return Err(Refusal::NotAscii);
    }
    let classes = Classes::new();
    let used = document(&classes, text, marks)?;
    if marks.len() < used {
        return Err(Refusal::ShortMarks);
    }
    Ok(used)
}

// The tape of a text. Under 1 nothing is changed, under each other refusal the marks are zero.
pub fn tape_of(text: &[u8], marks: &mut [u32]) -> Answer
    ensures { TapeIs text.now marks.old (answer_of result).number (answer_of result).place marks.new }
{
    if !tape_lengths(text.len(), marks.len()) {
        return Err(Refusal::BadLength.into());
    }
    let used = stored(text, marks);
    zero_marks(marks, used.unwrap_or(0));
    Ok(used?)
}
