// What lowering makes of one row of a schema sheet: decided, and written to a graph sheet. Writer and part stand
// apart, as in `ir_write`. The tag and the numbers of a row are arguments one by one: the recipe is what is made of them.
#![tactic(auto)]

ghost use Rattle.std.specs.Prelude.{ℕ, ◌/◌, ◌%◌, ◌^◌, ◌≤◌, ◌<◌, ◌≡◌, Bool, true};
ghost use Rattle.builtin.specs.Builtin.{map_builtin, reference as reference_number};
ghost use Rattle.xsd_types.specs.Types.{MaxOccurs};
ghost use Rattle.xsd_types.specs.Tags.{simple_type_tag, fraction_digits_tag, any_tag, bound_element_tag};
ghost use Rattle.ir_lower.specs.Lower.{lower_cardinality};
ghost use Rattle.ir_types.specs.Tags.{field_tag};
ghost use Rattle.ir_types.specs.Rows.{cardinality_b, cardinality_c};
ghost use Rattle.ir_append.specs.declared.Spelling.{Spelling};
ghost use Rattle.ir_rows.specs.Lowered.{lowered_row};
ghost use Rattle.ir_rows.specs.Parts.{part_row};
ghost use Rattle.ir_append.specs.Grows.{Grows};
ghost use Rattle.ir_row.specs.Recipes.{has_recipe, refers, reference_spelling, namespace_spelling, texts_recipe, child_recipe, as_cardinality, Lowers, IsCount, ten_rows};

use ir_append::writer::GraphWriter;
use ir_append::{Recipe, Spelling};
use ir_types::tags as graph;
use number::{CharacterCount, DigitCount};
use rows::form::in_range;
use rows::numbers::{joined, wide};
use rows::part::SheetPart;
use rows::parts::part_of;
use rows::ten::Ten;
use xsd_refused::reference_of;
use xsd_types::tags as schema;

// How often a field stands: a bound is above 1.
#[derive(Clone, Copy)]
enum Cardinality {
    Required,
    Optional,
    Vec,
    Bounded(u32),
}

impl Cardinality {
    // A match and no discriminant: a case holds its bound.
    // "b cardinality 0 required, 1 optional, 2 vec, 3 bounded with c the bound, above 1"
    #[tactic(auto, unfolding(ir_types::specs::Rows::cardinality_b))]
    fn number(self) -> u32
        ensures { result ≡ cardinality_b (as_cardinality self) }
    {
        match self {
            Cardinality::Required => 0,
            Cardinality::Optional => 1,
            Cardinality::Vec => 2,
            Cardinality::Bounded(_) => 3,
        }
    }

    // 0 where there is no bound.
    #[tactic(auto, unfolding(ir_types::specs::Rows::cardinality_c))]
    fn bound(self) -> u32
        ensures { result ≡ cardinality_c (as_cardinality self) }
    {
        match self {
            Cardinality::Required | Cardinality::Optional | Cardinality::Vec => 0,
            Cardinality::Bounded(bound) => bound,
        }
    }
}

// `codes`, here and below: the row is of a code enum. A flag that is passed on, as in the definitions: only this test and `simple_recipe` look at it, so a function
// for each of its values would say all other recipes twice.
fn has_recipe(codes: bool, tag: u32) -> bool
    ensures { result ≡ has_recipe codes tag }
{
    in_range(schema::NAMESPACE, schema::ATTRIBUTE, tag)
        & !in_range(schema::MIN_LENGTH, schema::MAX_LENGTH, tag)
        & !in_range(schema::TOTAL_DIGITS, schema::FRACTION_DIGITS, tag)
        & (tag != schema::NO_CONTENT)
        & ((tag != schema::ENUMERATION) | codes)
}

fn refers_to(tag: u32) -> bool
    ensures { result ≡ refers tag }
{
    (tag == schema::SIMPLE_TYPE)
        | (tag == schema::SIMPLE_CONTENT)
        | in_range(schema::BOUND_ELEMENT, schema::ATTRIBUTE, tag)
}

// This and the next differ in the number and the spelling, which one function would be handed.
fn reference_text(reference: u32) -> Option<Spelling>
    ensures { result ≡ reference_spelling reference }
{
    (reference == 0).then_some(Spelling::SecondNormalized)
}

fn namespace_text(a: u32) -> Option<Spelling>
    ensures { result ≡ namespace_spelling a }
{
    (a == 1).then_some(Spelling::Second)
}

fn with_texts(tag: u32, a: u32, c: u32, first: Spelling, second: Option<Spelling>) -> Recipe
    ensures { result ≡ texts_recipe tag a c first second }
{
    Recipe {
        tag,
        a,
        b: 0,
        c,
        first: Some(first),
        second,
        third: None,
    }
}

fn child(tag: u32, reference: u32, b: u32, c: u32, second: Spelling) -> Recipe
    ensures { result ≡ child_recipe tag reference b c second }
{
    let third = reference_text(reference);
    Recipe {
        tag,
        a: reference,
        b,
        c,
        first: Some(Spelling::First),
        second: Some(second),
        third,
    }
}

// "max above 1 bounded; min 0 and max 1 optional; all else required"
fn bounded(min: u32, max: u32) -> Cardinality
    ensures { as_cardinality result ≡ lower_cardinality min (MaxOccurs.bounded max) }
{
    if 1 < max {
        return Cardinality::Bounded(max);
    }
    if (min == 0) & (max == 1) {
        Cardinality::Optional
    } else {
        Cardinality::Required
    }
}

fn field(reference: u32, cardinality: Cardinality) -> Recipe
    ensures { result ≡ child_recipe field_tag reference (cardinality_b (as_cardinality cardinality)) (cardinality_c (as_cardinality cardinality)) Spelling.FirstSnake }
{
    child(
        graph::FIELD,
        reference,
        cardinality.number(),
        cardinality.bound(),
        Spelling::FirstSnake,
    )
}

// The head of a simple type: a code enum, or a newtype with its inner type's number. A head keeps the number of its event.
fn simple_recipe(codes: bool, event: u32, reference: u32) -> Recipe
    ensures { (a b : ℕ) → Lowers codes simple_type_tag a b event reference result }
{
    if codes {
        with_texts(graph::CODE_ENUM, 0, event, Spelling::FirstNormalized, None)
    } else {
        with_texts(
            graph::NEWTYPE,
            reference,
            event,
            Spelling::FirstNormalized,
            None,
        )
    }
}

// The namespace's row, an element's or a simple type's.
fn first_recipe(codes: bool, tag: u32, event: u32, reference: u32) -> Recipe
    requires { tag ≤ simple_type_tag }
    ensures { (a b : ℕ) → Lowers codes tag a b event reference result }
{
    match tag {
        schema::ELEMENT => with_texts(
            graph::ROOT,
            0,
            event,
            Spelling::First,
            Some(Spelling::Second),
        ),
        schema::SIMPLE_TYPE => simple_recipe(codes, event, reference),
        _ => with_texts(graph::NAMESPACE, 0, 0, Spelling::First, None),
    }
}

// The row of a facet that is a text.
fn facet_recipe(tag: u32) -> Recipe
    requires { (simple_type_tag < tag) × (tag ≤ fraction_digits_tag) }
    ensures { (codes : Bool) (a b c n : ℕ) → Lowers codes tag a b c n result }
{
    match tag {
        schema::PATTERN => with_texts(graph::PATTERN, 0, 0, Spelling::First, None),
        schema::MIN_INCLUSIVE => { with_texts(graph::MIN_INCLUSIVE, 0, 0, Spelling::First, None) }
        schema::MAX_INCLUSIVE => { with_texts(graph::MAX_INCLUSIVE, 0, 0, Spelling::First, None) }
        _ => with_texts(
            graph::CODE,
            0,
            0,
            Spelling::First,
            Some(Spelling::FirstPascal),
        ),
    }
}

// The head of a complex type.
fn complex_recipe(tag: u32, a: u32, event: u32, reference: u32) -> Recipe
    requires { (fraction_digits_tag < tag) × (tag ≤ any_tag) }
    ensures { (codes : Bool) (b : ℕ) → Lowers codes tag a b event reference result }
{
    match tag {
        schema::SEQUENCE => with_texts(graph::STRUCT, 0, event, Spelling::FirstNormalized, None),
        schema::CHOICE => with_texts(graph::ENUM, 0, event, Spelling::FirstNormalized, None),
        schema::SIMPLE_CONTENT => with_texts(
            graph::VALUE_WITH_ATTRIBUTES,
            reference,
            event,
            Spelling::FirstNormalized,
            reference_text(reference),
        ),
        _ => with_texts(
            graph::OPAQUE,
            a,
            event,
            Spelling::FirstNormalized,
            namespace_text(a),
        ),
    }
}

// The row of a field whose number is bounded.
fn bounded_field(min: u32, max: u32, reference: u32) -> Recipe
    ensures { (codes : Bool) (c : ℕ) → Lowers codes bound_element_tag min max c reference result }
{
    field(reference, bounded(min, max))
}

// The row of a field, a variant or an attribute.
fn child_recipe(tag: u32, a: u32, b: u32, reference: u32) -> Recipe
    requires { any_tag < tag }
    ensures { (codes : Bool) (c : ℕ) → Lowers codes tag a b c reference result }
{
    match tag {
        schema::BOUND_ELEMENT => bounded_field(a, b, reference),
        schema::UNBOUNDED_ELEMENT => field(reference, Cardinality::Vec),
        schema::CHOICE_VARIANT => child(graph::VARIANT, reference, 0, 0, Spelling::First),
        _ => child(graph::ATTRIBUTE, reference, a, 0, Spelling::FirstSnake),
    }
}

// `reference` is that of the second text, where the row refers to a type: the number that the graph's row stores in a. A head keeps its event, which is c.
pub fn recipe_of(t: Ten, codes: bool, reference: u32) -> Recipe
    ensures { Lowers codes t.tag t.a t.b t.c reference result }
{
    if t.tag <= schema::SIMPLE_TYPE {
        return first_recipe(codes, t.tag, t.c, reference);
    }
    if t.tag <= schema::FRACTION_DIGITS {
        return facet_recipe(t.tag);
    }
    if t.tag <= schema::ANY {
        complex_recipe(t.tag, t.a, t.c, reference)
    } else {
        child_recipe(t.tag, t.a, t.b, reference)
    }
}

// 0 where the row refers to no type: no recipe reads it there.
fn row_reference(tag: u32, second: &[u8]) -> u32
    ensures { refers tag ≡ true → result ≡ reference_number (map_builtin second.now) }
{
    if refers_to(tag) {
        reference_of(second)
    } else {
        0
    }
}

fn count_of(low: u32, high: u32) -> CharacterCount
    ensures { (result.0 % 2 ^ 32 ≡ low) × (result.0 / 2 ^ 32 ≡ high) }
{
    CharacterCount(joined(low, high))
}

// The row of a row of the schema that is no count, where it has one.
fn put_spelled(writer: &mut GraphWriter<'_>, names: &[u8], t: Ten, codes: bool) -> Option<()>
    requires { IsCount t.tag → ⊥ }
    ensures { Grows writer.old (ten_rows codes names.now t) writer.new result }
{
    if !has_recipe(codes, t.tag) {
        return Some(());
    }
    let first = part_of(names, wide(t.at0), wide(t.len0));
    let second = part_of(names, wide(t.at1), wide(t.len1));
    let recipe = recipe_of(t, codes, row_reference(t.tag, second));
    writer.append_spelled(recipe, first, second)
}

// Adds what lowering makes of the row at a place, or answers `None` where there is no room.
pub fn put_lowered(
    writer: &mut GraphWriter<'_>,
    part: &SheetPart<'_>,
    place: usize,
    codes: bool,
) -> Option<()>
    requires { place < part.now.end }
    ensures { Grows writer.old (lowered_row codes (part_row part.now place)) writer.new result }
{
    let t = part.ten(place);
    match t.tag {
        schema::MIN_LENGTH => writer.grow_characters(graph::MIN_LENGTH, count_of(t.a, t.b)),
        schema::MAX_LENGTH => writer.grow_characters(graph::MAX_LENGTH, count_of(t.a, t.b)),
        schema::TOTAL_DIGITS => writer.grow_digits(graph::TOTAL_DIGITS, DigitCount(t.a)),
        schema::FRACTION_DIGITS => writer.grow_digits(graph::FRACTION_DIGITS, DigitCount(t.a)),
        _ => put_spelled(writer, part.names, t, codes),
    }
}
