// What is read of the values of a tag's attributes: name and type, occurs.
ghost use Rattle.std.specs.Prelude.{◌≡◌};
ghost use Rattle.std.proofs.Math.Option.{some};
ghost use Rattle.number.specs.Answers.{of_number};
ghost use Rattle.xsd_parser.specs.Handlers.{parse_min_occurs, parse_max_occurs, is_required};
ghost use Rattle.tape.specs.Lookup.{seen_at};
ghost use Rattle.xsd_decide.specs.Reads.{both_values, typed_values, max_answer};

use number::parse_u32;
use tape::attributes::SeenTag;
use tape::words::Key;
use text::same_text;

// The values of a tag's name and type attributes.
#[derive(Clone, Copy)]
pub struct NameAndType<'a> {
    pub name: &'a [u8],
    pub typ: &'a [u8],
}

// What maxOccurs gives: a number or the word `unbounded`, as the definition has it. No Option, since the word is a value like any other.
#[derive(Clone, Copy)]
pub enum MaxOccurs {
    Bounded(u32),
    Unbounded,
}

// Name and type, if the tag has both.
pub fn name_and_type<'a>(t: &SeenTag<'a, '_>) -> Option<NameAndType<'a>>
    ensures { typed_values result ≡ both_values (seen_at t.now).name (seen_at t.now).type_name }
{
    let name = t.value(Key::Name)?;
    let typ = t.value(Key::Type)?;
    Some(NameAndType { name, typ })
}

// Whether the attribute `use` is exactly `required`.
pub fn is_required(t: &SeenTag<'_, '_>) -> bool
    ensures { result ≡ is_required (seen_at t.now).usage }
{
    t.value(Key::Use)
        .is_some_and(|usage| same_text(usage, b"required"))
}

// The lower bound of an element, 1 where it is absent.
pub fn min_occurs(t: &SeenTag<'_, '_>) -> Option<u32>
    ensures { of_number result ≡ parse_min_occurs (seen_at t.now).min_occurs }
{
    t.value(Key::MinOccurs).map_or(Some(1), parse_u32)
}

// The upper bound that a text says. White space may stand around the word, as around a number.
fn max_of(s: &[u8]) -> Option<MaxOccurs>
    ensures { max_answer result ≡ parse_max_occurs (some s.now) }
{
    if same_text(text::trimmed(s), b"unbounded") {
        return Some(MaxOccurs::Unbounded);
    }
    Some(MaxOccurs::Bounded(parse_u32(s)?))
}

// The upper bound of an element, 1 where it is absent.
pub fn max_occurs(t: &SeenTag<'_, '_>) -> Option<MaxOccurs>
    ensures { max_answer result ≡ parse_max_occurs (seen_at t.now).max_occurs }
{
    t.value(Key::MaxOccurs)
        .map_or(Some(MaxOccurs::Bounded(1)), max_of)
}
