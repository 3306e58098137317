// Decisions that several handlers share: the rows of elements and attributes, the base, a content without texts. The tag and the numbers of a row are
// arguments one by one: `NewRow` is what is made of them.
ghost use Rattle.std.specs.Prelude.{◌≡◌, [], Ok};
ghost use Rattle.xsd_parser.specs.Handlers.{ok};
ghost use Rattle.xsd_actions.specs.Actions.{Action};
ghost use Rattle.xsd_actions.specs.Answers.{decision};
ghost use Rattle.xsd_actions.specs.Decided.{top_element, named_child, base_set, occurs_added, element_inside, attribute_inside};
ghost use Rattle.tape.specs.Lookup.{seen_at};
ghost use Rattle.xsd_decide.specs.Rows.{typed_row};

use crate::values::{MaxOccurs, NameAndType, is_required, max_occurs, min_occurs, name_and_type};
use sheet::refusal::Refusal;
use tape::attributes::SeenTag;
use tape::words::Key;
use xsd_actions::{Decision, NewContent, NewRow};
use xsd_types::tags;

// The open type's base is the tag's.
pub fn base_set<'a>(t: &SeenTag<'a, '_>) -> Decision<'a>
    ensures { decision (Ok result) ≡ ok (base_set (seen_at t.now)) }
{
    Decision::Base(t.value_or_empty(Key::Base))
}

// The open complex type gets a content with no text behind the name.
pub fn content_alone<'a>(tag: u32) -> Decision<'a>
    ensures { decision (Ok result) ≡ ok (Action.content tag [] 0) }
{
    Decision::Content(NewContent {
        tag,
        second: None,
        a: 0,
    })
}

// A row with name and type.
fn typed_row<'a>(p: NameAndType<'a>, tag: u32, a: u32, b: u32, c: u32) -> Decision<'a>
    ensures { decision (Ok result) ≡ ok (Action.add (typed_row tag a b c p.entry.name.now p.entry.typ.now)) }
{
    Decision::Add(NewRow {
        tag,
        first: Some(p.name),
        second: Some(p.typ),
        a,
        b,
        c,
    })
}

// A row without numbers but c for a tag that has name and type.
fn named_row<'a>(t: &SeenTag<'a, '_>, tag: u32, c: u32) -> Decision<'a>
    ensures { decision (Ok result) ≡ ok (named_child (seen_at t.now) (typed_row tag 0 0 c)) }
{
    match name_and_type(t) {
        Some(p) => typed_row(p, tag, 0, 0, c),
        None => Decision::Keep,
    }
}

// An element at the top is kept if it has name and type, with the number of its event.
pub fn top_element<'a>(t: &SeenTag<'a, '_>, event: u32) -> Decision<'a>
    ensures { decision (Ok result) ≡ ok (top_element event (seen_at t.now)) }
{
    named_row(t, tags::ELEMENT, event)
}

// An element of a sequence: its occurs are read only if it has name and type, the lower bound before the upper.
fn occurs_added<'a>(t: &SeenTag<'a, '_>) -> Result<Decision<'a>, Refusal>
    ensures { decision result ≡ occurs_added (seen_at t.now) (seen_at t.now).name (seen_at t.now).type_name }
{
    let Some(p) = name_and_type(t) else {
        return Ok(Decision::Keep);
    };
    let min = min_occurs(t).ok_or(Refusal::InvalidAttributeValue)?;
    match max_occurs(t).ok_or(Refusal::InvalidAttributeValue)? {
        MaxOccurs::Bounded(max) => Ok(typed_row(p, tags::BOUND_ELEMENT, min, max, 0)),
        MaxOccurs::Unbounded => Ok(typed_row(p, tags::UNBOUNDED_ELEMENT, min, 0, 0)),
    }
}

// An element inside a complex type whose head has the tag `head`.
pub fn element_inside<'a>(t: &SeenTag<'a, '_>, head: u32) -> Result<Decision<'a>, Refusal>
    ensures { decision result ≡ element_inside (seen_at t.now) head }
{
    match head {
        tags::SEQUENCE => occurs_added(t),
        tags::CHOICE => Ok(named_row(t, tags::CHOICE_VARIANT, 0)),
        _ => Ok(Decision::Keep),
    }
}

// An attribute counts once the extension flag is set.
pub fn attribute_inside<'a>(t: &SeenTag<'a, '_>, flag: bool) -> Decision<'a>
    ensures { decision (Ok result) ≡ ok (attribute_inside (seen_at t.now) flag) }
{
    match name_and_type(t) {
        Some(p) if flag => typed_row(p, tags::ATTRIBUTE, u32::from(is_required(t)), 0, 0),
        _ => Decision::Keep,
    }
}
