// What lowering asks of a schema sheet's rows: the kind of a type by its head's tag, and how many types and elements there are. Places count rows; row 0 is at place 0.
#![tactic(auto)]

ghost use Rattle.std.specs.Prelude.{ℕ, ◌≤◌, ◌≡◌, List, length};
ghost use Rattle.xsd_types.specs.Places.{rows_from};
ghost use Rattle.ir_rows.specs.Lowered.{root_rows};
ghost use Rattle.ir_rows.specs.Types.{is_type, type_places};
ghost use Rattle.ir_checks.specs.Kinds.{is_kind};

use rows::count::count_tags;
use rows::form::in_range;
use rows::part::SheetPart;
use xsd_types::tags;

#[derive(Clone, Copy)]
pub enum TypeKind {
    Simple,
    Complex,
}

// The head of a finished type of one kind.
pub fn is_kind(kind: TypeKind, tag: u32) -> bool
    ensures { result ≡ is_kind kind tag }
{
    match kind {
        TypeKind::Simple => tag == tags::SIMPLE_TYPE,
        TypeKind::Complex => in_range(tags::SEQUENCE, tags::ANY, tag),
    }
}

fn is_type(tag: u32) -> bool
    ensures { result ≡ is_type tag }
{
    is_kind(TypeKind::Simple, tag) | is_kind(TypeKind::Complex, tag)
}

// How many types there are.
pub fn count_types(part: &SheetPart<'_>) -> usize
    requires { 2 ≤ part.now.end }
    ensures { (names : List ℕ) → result ≡ length (type_places 2 (rows_from part.now.rows.now names 2 part.now.end)) }
{
    count_tags(part, is_type)
}

// How many elements there are.
pub fn count_roots(part: &SheetPart<'_>) -> usize
    requires { 2 ≤ part.now.end }
    ensures { (names : List ℕ) → result ≡ length (root_rows (rows_from part.now.rows.now names 2 part.now.end)) }
{
    count_tags(part, |tag| tag == tags::ELEMENT)
}
