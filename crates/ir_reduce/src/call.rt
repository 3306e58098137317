// The call: lengths, form and names judged, what is reached marked, and what is kept written.
// Arrays on the stack: the library has no heap.
// The marks are bytes, 0 or 1, and no `bool`: `place_graph` and the queue take any byte but 0 for a mark, and `bool` would ask more of their callers.
ghost use Rattle.std.specs.Prelude.{true, ◌≡◌, replicate};
ghost use Rattle.sheet.specs.Calls.{sheet};
ghost use Rattle.rows.specs.Answers.{answer_of};
ghost use Rattle.ir_reduce.specs.Call.{lengths_fit, Reduction};
ghost use Rattle.ir_reduce.specs.Parts.{part_sheet, IsGraph, IsIndex, MarksAre};

use crate::index::{BUCKETS, NUMBERS, PLACES, index_heads, put_targets};
use crate::place::place_graph;
use crate::reach::Queue;
use graph_form::is_form;
use name_index::Table;
use rows::answers::Answer;
use rows::lengths::both_sheet_lengths;
use rows::numbers::wide;
use rows::part::SheetPart;
use sheet::refusal::Refusal;

// Marks what is reached from row 1, which stands for the roots behind it.
fn mark_reached(part: &SheetPart, table: &Table, marks: &mut [u8; PLACES])
    requires { IsGraph part.now × IsIndex part.now table.now × (marks.old ≡ replicate 4096 0) }
    ensures { MarksAre part.now marks.new }
{
    let mut to = [0u32; PLACES];
    let mut places = [0u32; PLACES];
    put_targets(part, table, &mut to);
    let mut queue = Queue {
        marks,
        places: &mut places,
        count: 0,
    };
    queue.mark(1);
    queue.mark_all(part, &to);
}

// From 15 on: no two types have one name.
fn reduce_distinct(part: &SheetPart, table: &Table, rows: &mut [u32], names: &mut [u8]) -> Answer
    requires { IsGraph part.now × (lengths_fit (part_sheet part.now) (sheet rows.old names.old) ≡ true) × IsIndex part.now table.now }
    ensures { Reduction (part_sheet part.now) (sheet rows.old names.old) (answer_of result) (sheet rows.new names.new) }
{
    let mut marks = [0u8; PLACES];
    mark_reached(part, table, &mut marks);
    place_graph(part, &marks, rows, names)
}

// From "two types of one name" on: nothing is written before every name is seen to be new.
fn reduce_form(part: &SheetPart, rows: &mut [u32], names: &mut [u8]) -> Answer
    requires { IsGraph part.now × (lengths_fit (part_sheet part.now) (sheet rows.old names.old) ≡ true) }
    ensures { Reduction (part_sheet part.now) (sheet rows.old names.old) (answer_of result) (sheet rows.new names.new) }
{
    let mut numbers = [0u32; NUMBERS];
    let Some(indexed) = index_heads(part, &mut numbers) else {
        return Err(Refusal::GraphForm.into());
    };
    let table = Table {
        numbers: &numbers,
        buckets: BUCKETS,
        entries: indexed.entries,
        sorted: indexed.sorted,
    };
    reduce_distinct(part, &table, rows, names)
}

// Reduces a graph to what its roots reach. Under 1 and 21 nothing is changed, under 15 the target is zero.
pub fn reduce(graph_rows: &[u32], graph_names: &[u8], rows: &mut [u32], names: &mut [u8]) -> Answer
    ensures { Reduction (sheet graph_rows.now graph_names.now) (sheet rows.old names.old) (answer_of result) (sheet rows.new names.new) }
{
    if !both_sheet_lengths(graph_rows.len(), graph_names.len(), rows.len(), names.len()) {
        return Err(Refusal::BadLength.into());
    }
    if !is_form(graph_rows, graph_names) {
        return Err(Refusal::GraphForm.into());
    }
    let part = SheetPart {
        rows: graph_rows,
        names: graph_names,
        end: wide(graph_rows[1]),
    };
    reduce_form(&part, rows, names)
}
