// What is kept, written into the target.
ghost use Rattle.std.specs.Prelude.{true, ◌≡◌};
ghost use Rattle.sheet.specs.Calls.{sheet};
ghost use Rattle.rows.specs.Answers.{answer_of};
ghost use Rattle.ir_append.specs.Whole.{ClearedBuffers};
ghost use Rattle.ir_reduce.specs.Call.{lengths_fit};
ghost use Rattle.ir_reduce.specs.Parts.{part_sheet, IsGraph, part_kept};
ghost use Rattle.ir_reduce.specs.Steps.{WrittenIs, Placed};

use crate::index::PLACES;
use crate::write::{count_kept, put_kept};
use ir_append::writer::{GraphWriter, zero_graph};
use ir_types::tags;
use rows::answers::Answer;
use rows::part::SheetPart;
use sheet::refusal::Refusal;

// The rows that are kept, then row 0, which says how much is used: how many rows are, or `None` where there is no room. Then the target is left to be cleared.
// Beside `ir_call`'s `write_graph`, which says why.
fn write_graph(
    part: &SheetPart,
    marks: &[u8; PLACES],
    rows: &mut [u32],
    names: &mut [u8],
) -> Option<usize>
    requires { IsGraph part.now × ClearedBuffers rows.old names.old }
    ensures { WrittenIs (part_kept part.now marks.now) rows.old names.old rows.new names.new result }
{
    let mut writer = GraphWriter::start(rows, names);
    put_kept(&mut writer, part, marks)?;
    let roots = count_kept(part, marks, tags::ROOT, tags::ROOT);
    let types = count_kept(part, marks, tags::STRUCT, tags::OPAQUE);
    Some(writer.put_row0(roots, types))
}

// "target zero on 15"
pub fn place_graph(
    part: &SheetPart,
    marks: &[u8; PLACES],
    rows: &mut [u32],
    names: &mut [u8],
) -> Answer
    requires { IsGraph part.now × (lengths_fit (part_sheet part.now) (sheet rows.old names.old) ≡ true) }
    ensures { Placed (part_kept part.now marks.now) (sheet rows.old names.old) (answer_of result) (sheet rows.new names.new) }
{
    zero_graph(rows, names);
    let Some(used) = write_graph(part, marks, rows, names) else {
        zero_graph(rows, names);
        return Err(Refusal::NoRoomInGraph.into());
    };
    Ok(used)
}
