// What an event decides, by the mode and the tag of the open head: 000, `on_start`, `on_empty` and `on_end`. `values`: what a tag says;
// `shared`: decisions that several handlers share; `simple`, `complex`: inside a simple, a complex type.
#![tactic(auto, unfolding(crate::proofs::Laws::Unfold::decides))]

pub mod complex;
pub mod shared;
pub mod simple;
pub mod values;

ghost use Rattle.std.specs.Prelude.{◌≡◌, Ok};
ghost use Rattle.xsd_parser.specs.Handlers.{ok};
ghost use Rattle.xsd_actions.specs.Answers.{decision};
ghost use Rattle.xsd_actions.specs.Decided.{root_found, direct_child, start_in_schema, decided_start, decided_empty, decided_close};
ghost use Rattle.tape.specs.Lookup.{seen_at};
ghost use Rattle.xsd_decide.specs.Schema.{TypeNamed, empty_in_schema};

use crate::complex::{empty_in_complex_type, start_in_complex_type};
use crate::shared::{content_alone, top_element};
use crate::simple::{empty_in_simple_type, start_in_simple_type};
use sheet::refusal::Refusal;
use tape::attributes::SeenTag;
use tape::words::Key;
use xsd_actions::{Decision, Mode, NewType};
use xsd_parser::words::Word;
use xsd_types::{contexts, tags};

// A schema tag sets the namespace anew.
fn root_found<'a>(t: &SeenTag<'a, '_>) -> Decision<'a>
    ensures { decision (Ok result) ≡ ok (root_found (seen_at t.now)) }
{
    match t.word {
        Word::Schema => Decision::Root(t.value_or_empty(Key::TargetNamespace)),
        _ => Decision::Keep,
    }
}

// A type needs a name, which the event of this number gives.
fn new_type<'a>(t: &SeenTag<'a, '_>, event: u32) -> Result<NewType<'a>, Refusal>
    ensures { TypeNamed (seen_at t.now) event result }
{
    let name = t.value(Key::Name).ok_or(Refusal::MissingAttribute)?;
    Ok(NewType { name, event })
}

// A started direct child of the schema opens a type or is an element.
fn direct_child<'a>(t: &SeenTag<'a, '_>, event: u32) -> Result<Decision<'a>, Refusal>
    ensures { decision result ≡ direct_child event (seen_at t.now) }
{
    match t.word {
        Word::SimpleType => Ok(Decision::OpenSimple(new_type(t, event)?)),
        Word::ComplexType => Ok(Decision::OpenComplex(new_type(t, event)?)),
        Word::Element => Ok(top_element(t, event)),
        _ => Ok(Decision::Keep),
    }
}

// A start below the schema: deeper ones are passed over.
fn start_in_schema<'a>(
    t: &SeenTag<'a, '_>,
    nesting: u32,
    event: u32,
) -> Result<Decision<'a>, Refusal>
    ensures { decision result ≡ start_in_schema event (seen_at t.now) nesting }
{
    if nesting != 0 {
        return Ok(Decision::Keep);
    }
    direct_child(t, event)
}

// An empty tag below the schema: only an element that is a direct child counts.
fn empty_in_schema<'a>(t: &SeenTag<'a, '_>, nesting: u32, event: u32) -> Decision<'a>
    ensures { decision (Ok result) ≡ ok (empty_in_schema event (seen_at t.now) nesting) }
{
    match t.word {
        Word::Element if nesting == 0 => top_element(t, event),
        _ => Decision::Keep,
    }
}

// What a start tag decides by what is seen of it. The event is the run's event of this number, from 0. No struct of tag, head and event: what these two call takes the head
// or the event, and no function both.
pub fn on_start<'a>(
    t: &SeenTag<'a, '_>,
    m: Mode,
    head: u32,
    event: u32,
) -> Result<Decision<'a>, Refusal>
    ensures { decision result ≡ decided_start event (seen_at t.now) m head }
{
    match m.context {
        contexts::NONE => Ok(root_found(t)),
        contexts::SCHEMA => start_in_schema(t, m.nesting, event),
        contexts::SIMPLE_TYPE => Ok(start_in_simple_type(t, m.nesting)),
        _ => start_in_complex_type(t, m.nesting, head),
    }
}

// What an empty tag decides.
pub fn on_empty<'a>(
    t: &SeenTag<'a, '_>,
    m: Mode,
    head: u32,
    event: u32,
) -> Result<Decision<'a>, Refusal>
    ensures { decision result ≡ decided_empty event (seen_at t.now) m head }
{
    match m.context {
        contexts::NONE => Ok(root_found(t)),
        contexts::SCHEMA => Ok(empty_in_schema(t, m.nesting, event)),
        contexts::SIMPLE_TYPE => empty_in_simple_type(t),
        _ => empty_in_complex_type(t, m.extension, head),
    }
}

// What a close decides: a complex type that has no content yet gets one without namespace as it is finished.
pub fn on_close<'a>(m: Mode, head: u32) -> Decision<'a>
    ensures { decision (Ok result) ≡ ok (decided_close m head) }
{
    if head == tags::NO_CONTENT && m.nesting == 0 {
        content_alone(tags::ANY)
    } else {
        Decision::Keep
    }
}
