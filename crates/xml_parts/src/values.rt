// References, attribute values and character data. The loops over runs are `while` loops: each turn goes on behind a run of any length.
// `is_quote`, and that a position is inside the text, are clauses: a type for the byte or the position would be turned back for each compare.
ghost use Rattle.std.specs.Prelude.{◌≡◌, true, ◌≤◌, ◌<◌, length, drop, unwrap_or};
ghost use Rattle.xml.specs.Grammar.{digit_of};
ghost use Rattle.xml.specs.Values.{is_number, is_entity, is_reference, starts_character, value_end, is_quote, value, char_data, is_in_text, is_in_value};
ghost use Rattle.xml_parts.specs.Answers.{moved, stopped, held};
ghost use Rattle.xml.specs.Steps.{behind, many};
ghost use Rattle.xml.specs.Written.{is_value};

use crate::classes::{Class, Classes, is_char};
use crate::steps::{many, starts};
use plain_bytes::{SpaceRun, TabRun, TextRun, ValueRun, skip};

// A digit's value, in either case.
pub fn digit_of(b: u8) -> Option<u32>
    ensures { unwrap_or result 16 ≡ digit_of b }
{
    char::from(b).to_digit(16)
}

// Whether digits and a semicolon stand at a position, and give a character. A number past the last code point stays there. By an index: the
// place may be past the end, where no slice of the text begins.
pub fn is_number(text: &[u8], at: usize, base: u32) -> bool
    requires { (1 ≤ base) × (base ≤ 16) }
    ensures { result ≡ is_number base 0 (drop at text.now) }
{
    let mut v = 0;
    for i in at..text.len() {
        let b = text[i];
        if b == b';' {
            return is_char(v);
        }
        let Some(digit) = digit_of(b) else {
            return false;
        };
        if base <= digit {
            return false;
        }
        v = v * base + digit;
        if 1114111 < v {
            return false;
        }
    }
    false
}

#[tactic(auto, unfolding(xml::specs::Values::is_entity, text::specs::Text::bytes))]
pub fn is_entity(text: &[u8], at: usize) -> bool
    ensures { result ≡ is_entity (drop at text.now) }
{
    starts(text, at, b"&amp;")
        | starts(text, at, b"&lt;")
        | starts(text, at, b"&gt;")
        | starts(text, at, b"&apos;")
        | starts(text, at, b"&quot;")
}

pub fn is_reference(text: &[u8], at: usize) -> bool
    ensures { result ≡ is_reference (drop at text.now) }
{
    if starts(text, at, b"&#x") {
        return is_number(text, at + 3, 16);
    }
    if starts(text, at, b"&#") {
        return is_number(text, at + 2, 10);
    }
    is_entity(text, at)
}

// Whether the byte at a position may stand in a value or in text, apart from the bytes that end them.
pub fn is_plain(text: &[u8], at: usize) -> bool
    requires { at < length text.now }
    ensures { result ≡ starts_character (drop at text.now) }
{
    let b = text[at];
    if b == b'&' {
        return is_reference(text, at);
    }
    is_char(b as u32)
}

// Behind the bytes of a value that need no look: eight at a time at first, then one by one.
pub fn value_run(classes: &Classes, text: &[u8], at: usize) -> usize
    ensures { behind result (drop result text.now) ≡ many is_in_value at (drop at text.now) }
{
    many(classes, text, skip::<ValueRun>(text, at), Class::InValue)
}

// The place of the quote that ends a value, or the end of a text without one. Inlined: called from `value_end` and `is_value`, it made the tape a tenth longer in
// the whole library.
#[inline(always)]
fn value_stop(classes: &Classes, text: &[u8], at: usize, quote: u8) -> Option<usize>
    requires { is_quote quote ≡ true }
    ensures ends { stopped text.now result ≡ value_end quote at (drop at text.now) }
    ensures whole { held text.now result ≡ is_value quote (drop at text.now) }
{
    // A `while`: its steps are runs of any length.
    let mut i = value_run(classes, text, at);
    while i < text.len() {
        let b = text[i];
        if b == quote {
            return Some(i);
        }
        if b == b'<' {
            return None;
        }
        if !is_plain(text, i) {
            return None;
        }
        i = value_run(classes, text, i + 1);
    }
    Some(i)
}

// Most values are a run up to their quote: then the table is not asked, nor `value_stop` (one of the steps of docs/DECISIONS.md, 231). Inlined: called from
// xml_text's `attribute`, the tape of pain.001.001.09 took 673,907 instructions and not 616,533, and that of the mixed text of compare/benches/tape.c 632,916 and not
// 622,684 (the bar: the tape is no slower in compare/CALLS.md).
#[inline(always)]
pub fn value_end(classes: &Classes, text: &[u8], at: usize, quote: u8) -> Option<usize>
    requires { is_quote quote ≡ true }
    ensures { moved text.now result ≡ value_end quote at (drop at text.now) }
{
    let end = skip::<ValueRun>(text, at);
    if text::byte_at(text, end) == quote {
        return Some(end + 1);
    }
    let stop = value_stop(classes, text, end, quote)?;
    if stop < text.len() {
        Some(stop + 1)
    } else {
        None
    }
}

#[tactic(auto, unfolding(xml::specs::Values::is_quote))]
pub fn is_quote(b: u8) -> bool
    ensures { result ≡ is_quote b }
{
    matches!(b, b'"' | b'\'')
}

// A value with its quotes. `attribute` of xml_text, which has looked at the first quote, calls `value_end`.
pub fn value(classes: &Classes, text: &[u8], at: usize) -> Option<usize>
    ensures { moved text.now result ≡ value at (drop at text.now) }
{
    let b = *text.get(at)?;
    if !is_quote(b) {
        return None;
    }
    value_end(classes, text, at + 1, b)
}

// Over lines eight bytes at a time, each with its carriage return: a tag is often followed by one. Inlined: called from `char_data` and `text_run` it made the tape of
// a text a tenth longer (the bar: the tape is no slower in compare/CALLS.md).
#[inline(always)]
fn skip_lines(text: &[u8], at: usize) -> usize
    ensures { many is_in_text result (drop result text.now) ≡ many is_in_text at (drop at text.now) }
{
    let mut i = at;
    if text::byte_at(text, at) != 13 {
        i = skip::<TextRun>(text, at);
    }
    // A `while`: its steps are runs of any length.
    while text::byte_at(text, i) == 13 {
        i = skip::<TextRun>(text, i + 1);
    }
    i
}

// Behind a line feed, where it stands at a position.
fn line_feed(text: &[u8], at: usize) -> usize
    ensures { many is_in_text result (drop result text.now) ≡ many is_in_text at (drop at text.now) }
{
    if text::byte_at(text, at) == b'\n' {
        return at + 1;
    }
    at
}

// Behind a line end, where it stands at a position.
fn line_end(text: &[u8], at: usize) -> usize
    ensures { many is_in_text result (drop result text.now) ≡ many is_in_text at (drop at text.now) }
{
    match text::byte_at(text, at) {
        b'\r' => line_feed(text, at + 1),
        b'\n' => at + 1,
        _ => at,
    }
}

// Behind a line end and the spaces or tabs of an indent, which stand before most tags: a run of one byte takes one step a word. Without it the tape of pain.001.001.09
// took about 24,000 instructions more, of 574,265 (the bar: the tape is no slower in compare/CALLS.md).
fn indent(text: &[u8], at: usize) -> usize
    ensures { many is_in_text result (drop result text.now) ≡ many is_in_text at (drop at text.now) }
{
    let line = line_end(text, at);
    if line == at {
        return at;
    }
    match text::byte_at(text, line) {
        b' ' => skip::<SpaceRun>(text, line),
        b'\t' => skip::<TabRun>(text, line),
        _ => line,
    }
}

// The same of character data.
fn text_run(classes: &Classes, text: &[u8], at: usize) -> usize
    ensures { behind result (drop result text.now) ≡ many is_in_text at (drop at text.now) }
{
    many(classes, text, skip_lines(text, at), Class::InText)
}

pub fn char_data(classes: &Classes, text: &[u8], at: usize) -> Option<usize>
    ensures { moved text.now result ≡ char_data at (drop at text.now) }
{
    // Most runs are an indent, or end at a `<`, of which the table need not be asked.
    let inside = indent(text, at);
    if text::byte_at(text, inside) == b'<' {
        return Some(inside);
    }
    let first = skip_lines(text, inside);
    if text::byte_at(text, first) == b'<' {
        return Some(first);
    }
    // A `while`: its steps are runs of any length.
    let mut i = many(classes, text, first, Class::InText);
    while i < text.len() {
        if text[i] == b'<' {
            return Some(i);
        }
        if starts(text, i, b"]]>") {
            return None;
        }
        if !is_plain(text, i) {
            return None;
        }
        i = text_run(classes, text, i + 1);
    }
    Some(i)
}

// Whether a part may stand whole between two quotes of the kind: nothing behind the part is looked at.
pub fn is_value(classes: &Classes, part: &[u8], quote: u8) -> bool
    requires { is_quote quote ≡ true }
    ensures { result ≡ is_value quote part.now }
{
    value_stop(classes, part, 0, quote).is_some_and(|stop| part.len() <= stop)
}
