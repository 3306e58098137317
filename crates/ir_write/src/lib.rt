// The graph's rows written one behind the other from the rows of a schema sheet: the namespace, the elements, the types that are kept.
// Writer and part go side by side through all of them: the one is changed and the other read, and nothing is known of both together.
#![tactic(auto)]

ghost use Rattle.std.specs.Prelude.{[], ◌∷◌, ◌≤◌, ◌<◌};
ghost use Rattle.ir_rows.specs.Lowered.{child_rows, type_rows_of, root_rows};
ghost use Rattle.ir_rows.specs.Parts.{part_row, part_rows, part_places, part_types, part_graph};
ghost use Rattle.ir_append.specs.Grows.{Grows};
ghost use Rattle.ir_write.specs.Kinds.{one_rows, kind_rows};

use ir_append::writer::GraphWriter;
use ir_checks::{TypeKind, is_kind};
use ir_row::put_lowered;
use rows::part::SheetPart;
use xsd_good::forms::row;
use xsd_refused::is_code_enum;
use xsd_types::tags;

// The children of a type: they stand from `first` up to the next head, or up to the end.
#[derive(Clone, Copy)]
struct Children {
    first: usize,
    code_enum: bool,
}

fn put_children(
    writer: &mut GraphWriter<'_>,
    part: &SheetPart<'_>,
    children: Children,
) -> Option<()>
    ensures { Grows writer.old (child_rows children.code_enum (part_rows part.now children.first)) writer.new result }
{
    let codes = children.code_enum;
    for place in children.first..part.end {
        if row::is_head(part.tag(place)) {
            return Some(());
        }
        put_lowered(writer, part, place, codes)?;
    }
    Some(())
}

// Not inlined: the pass over all rows that calls it would lose its registers to the loops in here.
#[inline(never)]
fn put_type(writer: &mut GraphWriter<'_>, part: &SheetPart<'_>, place: usize) -> Option<()>
    requires { place < part.now.end }
    ensures { Grows writer.old (type_rows_of (part_rows part.now place)) writer.new result }
{
    let code_enum = is_code_enum(part, place + 1);
    put_lowered(writer, part, place, code_enum)?;
    let children = Children {
        first: place + 1,
        code_enum,
    };
    put_children(writer, part, children)
}

fn put_root(writer: &mut GraphWriter<'_>, part: &SheetPart<'_>, place: usize) -> Option<()>
    requires { place < part.now.end }
    ensures { Grows writer.old (root_rows (part_row part.now place ∷ [])) writer.new result }
{
    if part.tag(place) != tags::ELEMENT {
        return Some(());
    }
    put_lowered(writer, part, place, false)
}

fn put_roots(writer: &mut GraphWriter<'_>, part: &SheetPart<'_>) -> Option<()>
    ensures { Grows writer.old (root_rows (part_rows part.now 2)) writer.new result }
{
    for place in 2..part.end {
        put_root(writer, part, place)?;
    }
    Some(())
}

// The type whose head stands at a place, if it is of that kind.
fn put_one(
    writer: &mut GraphWriter<'_>,
    part: &SheetPart<'_>,
    kind: TypeKind,
    place: usize,
) -> Option<()>
    requires { place < part.now.end }
    ensures { Grows writer.old (one_rows part.now kind place) writer.new result }
{
    if !is_kind(kind, part.tag(place)) {
        return Some(());
    }
    put_type(writer, part, place)
}

fn put_kind(writer: &mut GraphWriter<'_>, part: &SheetPart<'_>, kind: TypeKind) -> Option<()>
    ensures { Grows writer.old (kind_rows part.now kind 2) writer.new result }
{
    for place in 2..part.end {
        put_one(writer, part, kind, place)?;
    }
    Some(())
}

// "Only finished types are lowered, simple ones before complex."
fn put_types(writer: &mut GraphWriter<'_>, part: &SheetPart<'_>) -> Option<()>
    ensures { Grows writer.old (part_types part.now (part_places part.now)) writer.new result }
{
    put_kind(writer, part, TypeKind::Simple)?;
    put_kind(writer, part, TypeKind::Complex)
}

// The namespace's row, the elements' and the types' are added, or `None` is answered where there is no room.
pub fn put_graph(writer: &mut GraphWriter<'_>, part: &SheetPart<'_>) -> Option<()>
    requires { 2 ≤ part.now.end }
    ensures { Grows writer.old (part_graph part.now (part_places part.now)) writer.new result }
{
    put_lowered(writer, part, 1, false)?;
    put_roots(writer, part)?;
    put_types(writer, part)
}
