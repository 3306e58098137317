// The tape (paper 01, "Tape"): a record at a place of the marks, judged for 3 (`form`), 4 and 5 (`tests`). `pairs`: the parts of the text
// under its pairs; `words`: the word of a tag and the number of a key; `attributes`: what is seen of a tag that was judged; `view`: the event view.
#![tactic(auto, using(crate::proofs::Laws::Tried::laws), unfolding(crate::proofs::Laws::Tried::opened))]

pub mod attributes;
pub mod form;
pub mod pairs;
pub mod short;
pub mod tests;
pub mod view;
pub mod words;

ghost use Rattle.std.specs.Prelude.{◌≡◌, true, ◌+◌, ◌*◌, ◌≤◌, length};
ghost use Rattle.text.specs.Text.{is_plain};
ghost use Rattle.sheet.specs.Limits.{attributes_limit};
ghost use Rattle.xsd_parser.specs.Kinds.{close_kind};
ghost use Rattle.xsd_parser.specs.Tape.{pair_count};
ghost use Rattle.tape.specs.Answers.{RecordAt, TagAnswer};

use crate::view::View;
use rows::numbers::wide;
use sheet::refusal::Refusal;
use xsd_parser::kinds::Kind;

// An accepted record: its kind, its number of attributes, of which a close has none, where its pairs start in the marks (the first is the
// name's) and where the next record starts. The kind is a number, as the marks hold it: `on_event` of xsd_read takes any.
#[derive(Clone, Copy)]
pub struct TagRecord {
    pub kind: u32,
    pub count: usize,
    pub pairs: usize,
    pub next: usize,
}

// A record of a good form that is a tag: judged for 4 over all its pairs, then for 5.
fn tag_at(
    v: View<'_, '_>,
    at: usize,
    kind: u32,
    count: usize,
    plain: bool,
) -> Result<TagRecord, Refusal>
    requires fact { (kind ≡ close_kind → ⊥) × (count ≤ attributes_limit) × (at + 2 + 2 * pair_count count ≤ length v.marks.now) }
    requires text_value { plain ≡ true → is_plain v.text.now ≡ true }
    ensures { TagAnswer v.entry.text.now v.entry.marks.now at kind count result }
{
    let pairs = at + 2;
    let n = 1 + 2 * count;
    if !tests::pairs_inside(v.text.len(), v.marks, pairs, n) {
        return Err(Refusal::BadPair);
    }
    if !tests::pairs_ascii(v, pairs, n, plain) {
        return Err(Refusal::NotAscii);
    }
    let next = pairs + 2 * n;
    Ok(TagRecord {
        kind,
        count,
        pairs,
        next,
    })
}

// The record of a close before a place of the marks.
fn closed(next: usize) -> TagRecord
    ensures { result ≡ record { kind = close_kind; count = 0; pairs = next; next = next } }
{
    TagRecord {
        kind: Kind::Close as u32,
        count: 0,
        pairs: next,
        next,
    }
}

// The record at a place of the marks, none at their end, judged as a whole for 3, then 4, then 5. Where `plain` says that all bytes of the text are below 128,
// no byte is read for 5; that is found at run time, once for all records, so it is an argument. A struct of text, `plain`
// and what it says would be turned into a view again for each part that is read.
pub fn record_at(v: View<'_, '_>, at: usize, plain: bool) -> Result<Option<TagRecord>, Refusal>
    requires { plain ≡ true → is_plain v.text.now ≡ true }
    ensures { RecordAt v.entry.text.now v.entry.marks.now at result }
{
    let marks = v.marks;
    if marks.len() <= at {
        return Ok(None);
    }
    let left = marks.len() - at;
    if left < 2 {
        return Err(Refusal::BadRecord);
    }
    let kind = marks[at];
    let count = wide(marks[at + 1]);
    if !form::has_form(kind, count, left - 2) {
        return Err(Refusal::BadRecord);
    }
    if kind == Kind::Close as u32 {
        return Ok(Some(closed(at + 2)));
    }
    let tag = tag_at(v, at, kind, count, plain)?;
    Ok(Some(tag))
}
