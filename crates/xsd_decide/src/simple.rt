// What start and empty tags decide inside a simple type (000, `on_start` and `on_empty`, `Context::SimpleType`).
ghost use Rattle.std.specs.Prelude.{◌≡◌, suc, Ok};
ghost use Rattle.number.specs.Number.{number};
ghost use Rattle.xsd_parser.specs.Handlers.{ok, on_parsed};
ghost use Rattle.xsd_actions.specs.Answers.{decision};
ghost use Rattle.xsd_actions.specs.Decided.{start_in_simple_type, empty_in_simple_type};
ghost use Rattle.tape.specs.Lookup.{seen_at};
ghost use Rattle.xsd_decide.specs.Facets.{text_added, length_added, digits_added, facet_read};

use crate::shared::base_set;
use number::counts::{character_count, digit_count};
use sheet::refusal::Refusal;
use tape::attributes::SeenTag;
use tape::words::Key;
use xsd_actions::{Decision, Facet, NewRow};
use xsd_parser::words::{FacetWord, Word};
use xsd_types::tags;

// A start inside a simple type. The nesting is that before the start, which raises it.
pub fn start_in_simple_type<'a>(t: &SeenTag<'a, '_>, nesting: u32) -> Decision<'a>
    ensures { decision (Ok result) ≡ ok (start_in_simple_type (seen_at t.now) (suc nesting)) }
{
    match t.word {
        Word::Restriction if nesting == 0 => base_set(t),
        _ => Decision::Keep,
    }
}

// A facet with a text.
fn text_row<'a>(tag: u32, value: &'a [u8]) -> Decision<'a>
    ensures { decision (Ok result) ≡ ok (text_added tag value.now) }
{
    Decision::Add(NewRow {
        tag,
        first: Some(value),
        second: None,
        a: 0,
        b: 0,
        c: 0,
    })
}

// A length facet with the number that a text says. One function for both counts would be no plainer: it would be passed the reader of the number and the case of
// the decision, which are all that these two bodies say.
fn length_row<'a>(tag: u32, value: &[u8]) -> Result<Decision<'a>, Refusal>
    ensures { decision result ≡ on_parsed (number 64 value.now) (length_added tag) }
{
    let count = character_count(value).ok_or(Refusal::InvalidAttributeValue)?;
    Ok(Decision::Characters(Facet { tag, count }))
}

// A digit facet with the number that a text says.
fn digits_row<'a>(tag: u32, value: &[u8]) -> Result<Decision<'a>, Refusal>
    ensures { decision result ≡ on_parsed (number 32 value.now) (digits_added tag) }
{
    let count = digit_count(value).ok_or(Refusal::InvalidAttributeValue)?;
    Ok(Decision::Digits(Facet { tag, count }))
}

// A facet by its word and its value.
fn facet_row<'a>(facet: FacetWord, value: &'a [u8]) -> Result<Decision<'a>, Refusal>
    ensures { decision result ≡ facet_read facet value.now }
{
    match facet {
        FacetWord::Enumeration => Ok(text_row(tags::ENUMERATION, value)),
        FacetWord::Pattern => Ok(text_row(tags::PATTERN, value)),
        FacetWord::MinLength => length_row(tags::MIN_LENGTH, value),
        FacetWord::MaxLength => length_row(tags::MAX_LENGTH, value),
        FacetWord::MinInclusive => Ok(text_row(tags::MIN_INCLUSIVE, value)),
        FacetWord::MaxInclusive => Ok(text_row(tags::MAX_INCLUSIVE, value)),
        FacetWord::TotalDigits => digits_row(tags::TOTAL_DIGITS, value),
        FacetWord::FractionDigits => digits_row(tags::FRACTION_DIGITS, value),
    }
}

// An empty tag inside a simple type, at any depth. An absent value is the empty text.
pub fn empty_in_simple_type<'a>(t: &SeenTag<'a, '_>) -> Result<Decision<'a>, Refusal>
    ensures { decision result ≡ empty_in_simple_type (seen_at t.now) }
{
    match t.word {
        Word::Restriction => Ok(base_set(t)),
        Word::Facet(facet) => facet_row(facet, t.value_or_empty(Key::Value)),
        _ => Ok(Decision::Keep),
    }
}
