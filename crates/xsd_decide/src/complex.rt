// What start and empty tags decide inside a complex type (000, `on_start` and `on_empty`, `Context::ComplexType`).
ghost use Rattle.std.specs.Prelude.{◌≡◌, suc, Ok};
ghost use Rattle.xsd_parser.specs.Handlers.{ok};
ghost use Rattle.xsd_actions.specs.Answers.{decision};
ghost use Rattle.xsd_actions.specs.Decided.{content_start, extended, start_at_two, start_in_complex_type, any_content, empty_in_complex_type};
ghost use Rattle.tape.specs.Lookup.{seen_at};

use crate::shared::{attribute_inside, base_set, content_alone, element_inside};
use sheet::refusal::Refusal;
use tape::attributes::SeenTag;
use tape::words::Key;
use xsd_actions::{Decision, NewContent};
use xsd_parser::words::Word;
use xsd_types::tags;

// A content begins; the base of a simple content is empty as yet.
fn content_start<'a>(t: &SeenTag<'a, '_>) -> Decision<'a>
    ensures { decision (Ok result) ≡ ok (content_start (seen_at t.now)) }
{
    match t.word {
        Word::Sequence => content_alone(tags::SEQUENCE),
        Word::Choice => content_alone(tags::CHOICE),
        Word::SimpleContent => Decision::Content(NewContent {
            tag: tags::SIMPLE_CONTENT,
            second: Some(&[]),
            a: 0,
        }),
        _ => Decision::Keep,
    }
}

// An extension sets the base of a simple content.
fn extension_start<'a>(t: &SeenTag<'a, '_>, head: u32) -> Decision<'a>
    ensures { decision (Ok result) ≡ ok (extended (seen_at t.now) head) }
{
    if head == tags::SIMPLE_CONTENT {
        return base_set(t);
    }
    Decision::Keep
}

// A start at depth 2: an extension or an element.
fn start_at_two<'a>(t: &SeenTag<'a, '_>, head: u32) -> Result<Decision<'a>, Refusal>
    ensures { decision result ≡ start_at_two (seen_at t.now) head }
{
    match t.word {
        Word::Extension => Ok(extension_start(t, head)),
        Word::Element => element_inside(t, head),
        _ => Ok(Decision::Keep),
    }
}

// A start inside a complex type. The nesting is that before the start, which raises it.
pub fn start_in_complex_type<'a>(
    t: &SeenTag<'a, '_>,
    nesting: u32,
    head: u32,
) -> Result<Decision<'a>, Refusal>
    ensures { decision result ≡ start_in_complex_type (seen_at t.now) (suc nesting) head }
{
    match nesting {
        0 => Ok(content_start(t)),
        1 => start_at_two(t, head),
        _ => Ok(Decision::Keep),
    }
}

// An `any` is the content, with its namespace if it has one.
fn any_content<'a>(t: &SeenTag<'a, '_>) -> Decision<'a>
    ensures { decision (Ok result) ≡ ok (any_content (seen_at t.now).namespace) }
{
    match t.value(Key::Namespace) {
        Some(second) => Decision::Content(NewContent {
            tag: tags::ANY,
            second: Some(second),
            a: 1,
        }),
        None => content_alone(tags::ANY),
    }
}

// An empty tag inside a complex type, at any depth.
pub fn empty_in_complex_type<'a>(
    t: &SeenTag<'a, '_>,
    flag: bool,
    head: u32,
) -> Result<Decision<'a>, Refusal>
    ensures { decision result ≡ empty_in_complex_type (seen_at t.now) flag head }
{
    match t.word {
        Word::Element => element_inside(t, head),
        Word::Any => Ok(any_content(t)),
        Word::Attribute => Ok(attribute_inside(t, flag)),
        _ => Ok(Decision::Keep),
    }
}
