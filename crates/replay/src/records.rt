// A record of a tape: what it is read as. Where `value` stands for its place, the label is looked up in the attributes of the first tag.
ghost use Rattle.tape.specs.Answers.{RecordAt, EventPlaced};

use rows::numbers::wide;
use sheet::refusal::Refusal;
use std::io;
use std::io::Write;
use tape::TagRecord;
use tape::attributes::SeenTag;
use tape::view::{View, event_marks, in_view};
use tape::words::Key;
use xsd_parser::kinds::Kind;

// Of a close, where the next record starts; of a tag, its kind, its number of attributes and where its pairs start before that.
fn put_event<W: Write>(out: &mut W, t: TagRecord) -> io::Result<()> {
    let TagRecord {
        kind,
        count,
        pairs,
        next,
    } = t;
    if kind == Kind::Close as u32 {
        write!(out, "close {next}")
    } else {
        write!(out, "tag {kind} {count} {pairs} {next}")
    }
}

fn put_record<W: Write>(out: &mut W, r: Result<Option<TagRecord>, Refusal>) -> io::Result<()> {
    match r {
        Ok(Some(t)) => put_event(out, t),
        Ok(None) => write!(out, "end"),
        Err(refusal) => write!(out, "refused {}", u32::from(refusal)),
    }
}

// Plain where the whole text is, so that the cases meet both ways of judging for 5.
fn read_at(v: View<'_, '_>, at: usize) -> Result<Option<TagRecord>, Refusal>
    ensures { RecordAt v.entry.text.now v.entry.marks.now at result }
{
    tape::record_at(v, at, text::is_plain(v.text))
}

// The value that is seen of a tag by a word: the cases ask for two keys.
fn value_under<'a>(seen: SeenTag<'a, '_>, word: &[u8]) -> Option<&'a [u8]> {
    match word {
        b"name" => seen.value(Key::Name),
        b"type" => seen.value(Key::Type),
        _ => None,
    }
}

// The value that a word is looked up to in a record that was read. A close has no attributes.
fn tag_value<'a>(v: View<'a, '_>, t: TagRecord, word: &[u8]) -> Option<&'a [u8]>
    requires { EventPlaced v.text.now v.marks.now 0 t }
{
    if t.kind == Kind::Close as u32 {
        return None;
    }
    let own = event_marks(v.marks, t.pairs, t.count);
    value_under(in_view(v.text, own, t.count), word)
}

// The same in the first record, where it is a tag that is not refused.
fn put_value<W: Write>(out: &mut W, v: View<'_, '_>, word: &[u8]) -> io::Result<()> {
    let found = match read_at(v, 0) {
        Ok(Some(t)) => tag_value(v, t, word),
        _ => None,
    };
    out.write_all(found.unwrap_or(b"nothing"))
}

// The label, and what is read of the marks and the text.
pub fn write_case<W: Write>(
    out: &mut W,
    place: &[u8],
    marks: &[u32],
    text: &[u8],
    label: &[u8],
) -> io::Result<()> {
    out.write_all(label)?;
    write!(out, ": ")?;
    let v = View { text, marks };
    match number::parse_u32(place) {
        Some(at) => put_record(out, read_at(v, wide(at)))?,
        None => put_value(out, v, label)?,
    }
    writeln!(out)
}
