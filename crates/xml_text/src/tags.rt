// Start and empty tags.
ghost use Rattle.std.specs.Prelude.{◌≡◌, [], ◌∷◌, ◌+◌, ◌*◌, ◌≤◌, ◌<◌, length, drop};
ghost use Rattle.std.proofs.lemmas.List.Edits.{sets};
ghost use Rattle.xml.specs.Steps.{leading_name};
ghost use Rattle.xml.specs.Tape.{attribute_marks};
ghost use Rattle.xml.specs.Tags.{attribute, part_of, attribute_from, attributes, tag};
ghost use Rattle.xml.specs.Grammar.{is_among};
ghost use Rattle.xml_text.specs.Answers.{next_part, last_part, PartIn, OpensValue, is_key_next, names_up_to, EndsTag, IsTag};

use crate::marks::put_four;
use xml_parts::classes::Classes;
use xml_parts::prolog::eq;
use xml_parts::steps::{literal, name, same_name, spaces, starts};
use xml_parts::values::{is_quote, value_end};
use xsd_parser::kinds::Kind;

// Where the key of an attribute starts and ends, where the quote before its value stands, and the position behind the one that ends it.
#[derive(Clone, Copy)]
pub struct KeyValue {
    pub key: usize,
    pub key_end: usize,
    pub quote: usize,
    pub behind: usize,
}

// What stands next in a tag: its end with its kind and the position behind it, or an attribute.
#[derive(Clone, Copy)]
pub enum Next {
    Last { kind: Kind, behind: usize },
    More(KeyValue),
}

// Where the quote before a value stands, and which of the two it is.
#[derive(Clone, Copy)]
pub struct OpeningQuote {
    pub at: usize,
    pub byte: u8,
}

// The quote behind a key. Most keys have `=` and a quote right behind them, and then nothing else is asked of what stands there. It hands on which quote it is: with a
// value of its own behind `eq`, a text of ` = ` took up to a tenth more instructions than before that (docs/DECISIONS.md, 232; the bar: the tape is no slower in
// compare/CALLS.md). Inlined, as `attribute`.
#[inline(always)]
fn opening(classes: &Classes, text: &[u8], at: usize) -> Option<OpeningQuote>
    ensures { OpensValue text.now at result }
{
    if starts(text, at, b"=") {
        let byte = text::byte_at(text, at + 1);
        if is_quote(byte) {
            return Some(OpeningQuote { at: at + 1, byte });
        }
    }
    let quote = eq(classes, text, at)?;
    let byte = text::byte_at(text, quote);
    if !is_quote(byte) {
        return None;
    }
    Some(OpeningQuote { at: quote, byte })
}

// An attribute. Inlined: what a call of its own answers goes through memory, which made the tape a tenth longer (the bar: the tape is no slower in compare/CALLS.md).
#[inline(always)]
pub fn attribute(classes: &Classes, text: &[u8], at: usize) -> Option<Next>
    ensures { (next_part text.now result ≡ attribute at (drop at text.now)) × PartIn (length text.now) at result }
{
    let key_end = name(classes, text, at)?;
    let before = opening(classes, text, key_end)?;
    let behind = value_end(classes, text, before.at + 1, before.byte)?;
    Some(Next::More(KeyValue {
        key: at,
        key_end,
        quote: before.at,
        behind,
    }))
}

// Whether one space stands at a position, and behind it a byte above all white space and the bytes that end a tag.
fn is_key_next(text: &[u8], at: usize) -> bool
    ensures { result ≡ is_key_next (drop at text.now) }
{
    text::byte_at(text, at) == b' ' && b'>' < text::byte_at(text, at + 1)
}

// The end of a tag, where it stands at a position. Inlined: as words of both callers it took the same instructions, 616,469 on pain.001.001.09 (the bar: the tape is
// no slower in compare/CALLS.md).
#[inline(always)]
#[tactic(auto, unfolding(crate::specs::Answers::last_part, text::specs::Text::bytes))]
fn last_part(text: &[u8], at: usize) -> Option<Next>
    ensures { result ≡ last_part at (drop at text.now) }
{
    if starts(text, at, b"/>") {
        return Some(Next::Last {
            kind: Kind::Empty,
            behind: at + 2,
        });
    }
    if starts(text, at, b">") {
        return Some(Next::Last {
            kind: Kind::Start,
            behind: at + 1,
        });
    }
    None
}

// What stands next in a tag, with any white space before it.
fn spaced_part(classes: &Classes, text: &[u8], at: usize) -> Option<Next>
    ensures { (next_part text.now result ≡ part_of at (drop at text.now)) × PartIn (length text.now) at result }
{
    let start = spaces(classes, text, at);
    let last = last_part(text, start);
    if last.is_some() {
        return last;
    }
    if start == at {
        return None;
    }
    attribute(classes, text, start)
}

// The same, where most often one space and a key stand there, or the end of the tag. These are asked for before any white space is looked for: one
// of the steps of docs/DECISIONS.md, 231, with which pain.001.001.09 took 616,469 instructions and not 700,315 (the bar as above).
pub fn part_of(classes: &Classes, text: &[u8], at: usize) -> Option<Next>
    ensures { (next_part text.now result ≡ part_of at (drop at text.now)) × PartIn (length text.now) at result }
{
    if is_key_next(text, at) {
        return attribute(classes, text, at + 1);
    }
    let last = last_part(text, at);
    if last.is_some() {
        return last;
    }
    spaced_part(classes, text, at)
}

// Whether the name at a position is the name at one of the keys.
pub fn is_among(classes: &Classes, text: &[u8], key: usize, keys: &[u16]) -> bool
    ensures { result ≡ is_among (leading_name (drop key text.now)) (names_up_to text.now keys.now (length keys.now)) }
{
    keys.iter()
        .any(|other| same_name(classes, text, key, *other as usize))
}

// The end of a tag: its kind, how many attributes it has, and the position behind it.
#[derive(Clone, Copy)]
pub struct EndOfTag {
    pub kind: Kind,
    pub count: usize,
    pub behind: usize,
}

fn put_attribute(marks: &mut [u32], at: usize, it: KeyValue)
    requires { (at + 2 < 1000000) × (it.key ≤ it.key_end) × (it.key_end ≤ 65536) × (it.quote + 2 ≤ it.behind) × (it.behind ≤ 65536) }
    ensures { marks.new ≡ sets marks.old at (attribute_marks (attribute_from it.key it.key_end it.quote it.behind ∷ [])) }
{
    let key_size = it.key_end - it.key;
    let value = it.quote + 1;
    let value_size = it.behind - 1 - value;
    put_four(
        marks,
        at,
        it.key as u32,
        key_size as u32,
        value as u32,
        value_size as u32,
    );
}

// The attributes of a tag, whose keys are kept while it is read, up to its end. A `loop` with a count: an attribute has any number of bytes, and how many there are
// shows at the end of the tag.
pub fn attributes(
    classes: &Classes,
    text: &[u8],
    at: usize,
    keys: &mut [u16],
    marks: &mut [u32],
    from: usize,
) -> Option<EndOfTag>
    requires { (length text.now ≤ 65536) × (length text.now ≤ at + 3 * length keys.old) × (from ≤ 200000) }
    ensures { EndsTag text.now at marks.old from marks.new result (attributes at (drop at text.now)) }
{
    let mut i = at;
    let mut count = 0;
    // No `for`: an attribute has any number of bytes, and how many there are is known at the end.
    loop {
        let part = part_of(classes, text, i)?;
        match part {
            Next::Last { kind, behind } => {
                return Some(EndOfTag {
                    kind,
                    count,
                    behind,
                });
            }
            Next::More(it) => {
                if is_among(classes, text, it.key, &keys[..count]) {
                    return None;
                }
                keys[count] = it.key as u16;
                put_attribute(marks, from + 4 * count, it);
                count += 1;
                i = it.behind;
            }
        }
    }
}

// A whole tag: its kind, where its name starts, the marks used behind it, and the position behind it.
#[derive(Clone, Copy)]
pub struct WholeTag {
    pub kind: Kind,
    pub start: usize,
    pub used: usize,
    pub behind: usize,
}

// `used`: the marks counted so far, which may be more than the marks lent, so it is no end of a slice.
pub fn tag(
    classes: &Classes,
    text: &[u8],
    at: usize,
    keys: &mut [u16],
    marks: &mut [u32],
    used: usize,
) -> Option<WholeTag>
    requires { (length text.now ≤ 65536) × (length text.now ≤ at + 3 * length keys.old) × (used ≤ 131072) }
    ensures { IsTag text.now at marks.old used marks.new result (tag at (drop at text.now)) }
{
    let start = literal(text, at, b"<")?;
    let end = name(classes, text, start)?;
    let last = attributes(classes, text, end, keys, marks, used + 4)?;
    let size = end - start;
    put_four(
        marks,
        used,
        last.kind as u32,
        last.count as u32,
        start as u32,
        size as u32,
    );
    Some(WholeTag {
        kind: last.kind,
        start,
        used: used + 4 + 4 * last.count,
        behind: last.behind,
    })
}
