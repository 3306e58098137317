// The lowering call: the graph of a schema sheet written into a graph sheet. The graph's two buffers and the scratch stand apart, as the C call lends them; what
// each step knows of them and of the part (`ClearedBuffers`, the scratch's room, `Finished`) stands in its contract, since it changes from step to step.
#![tactic(auto)]

ghost use Rattle.std.specs.Prelude.{ℕ, true, ◌≡◌, ◌≤◌, ◌<◌, List, [], length, MatchOption};
ghost use Rattle.sheet.specs.Calls.{sheet};
ghost use Rattle.rows.specs.Answers.{answer_of};
ghost use Rattle.xsd_types.specs.State.{State};
ghost use Rattle.xsd_types.specs.Count.{good, state_of};
ghost use Rattle.xsd_types.specs.Refused.{refused_place};
ghost use Rattle.ir_types.specs.Types.{TypeGraph};
ghost use Rattle.ir_lower.specs.Repeated.{first_repeated};
ghost use Rattle.ir_lower.specs.Call.{LowerIs, zeros, graph_written, repeated_or_written, scratch_least, lower_finished, lower_state};
ghost use Rattle.ir_rows.specs.Parts.{part_rows, part_heads};
ghost use Rattle.ir_index.specs.Blocks.{found_row};
ghost use Rattle.ir_append.specs.Whole.{ClearedBuffers};
ghost use Rattle.ir_call.specs.Steps.{SizedSheet, lowered_sheets, Finished, LowersState, GraphOf, GraphWritten};

use ir_append::writer::{GraphWriter, zero_graph};
use ir_checks::{count_roots, count_types};
use ir_index::first_repeated;
use ir_write::put_graph;
use rows::answers::{Answer, Refused};
use rows::lengths::both_sheet_lengths;
use rows::part::SheetPart;
use sheet::refusal::Refusal;
use xsd_good::count::count_in;
use xsd_good::{row0, scan};
use xsd_refused::first_refused;

// Order 11: "a scratch of 64 numbers, however many types there are".
const LEAST_SCRATCH: usize = 64;

// The rows behind row 0, then row 0, which says how much is used: how many rows are, or `None` where there is no room. Then the sheet is left to be cleared.
// Beside `ir_reduce::place::write_graph`: one function over both would take what puts the rows and both counts as closures, for the four lines that are the same.
fn write_graph(
    part: &SheetPart<'_>,
    graph_rows: &mut [u32],
    graph_names: &mut [u8],
) -> Option<usize>
    requires { Finished part.now × ClearedBuffers graph_rows.old graph_names.old }
    ensures { (g : TypeGraph) → GraphOf part.now g → GraphWritten g graph_rows.old graph_names.old result graph_rows.new graph_names.new }
{
    let mut writer = GraphWriter::start(graph_rows, graph_names);
    put_graph(&mut writer, part)?;
    Some(writer.put_row0(count_roots(part), count_types(part)))
}

// From 15 on. The scratch is left to be cleared, as in the steps that lead here.
fn lower_distinct(part: &SheetPart<'_>, graph_rows: &mut [u32], graph_names: &mut [u8]) -> Answer
    requires { Finished part.now × ClearedBuffers graph_rows.old graph_names.old }
    ensures { (g : TypeGraph) (scratch : List ℕ) → GraphOf part.now g
        → lowered_sheets (answer_of result) graph_rows.new graph_names.new (zeros scratch) ≡ graph_written g (sheet graph_rows.old graph_names.old) scratch }
{
    let Some(used) = write_graph(part, graph_rows, graph_names) else {
        zero_graph(graph_rows, graph_names);
        return Err(Refusal::NoRoomInGraph.into());
    };
    Ok(used)
}

// The row of the first head whose name came before. No more of the table is used, and cleared again, than serves: with eight numbers for each row all heads go into
// one block, and few of them into one bucket. A table of zeros is left so.
fn search_in(part: &SheetPart<'_>, table: &mut [u32]) -> Option<usize>
    requires { Finished part.now × (2 ≤ length table.old) }
    ensures found { first_repeated [] (part_heads part.now) ≡ found_row result }
    ensures kept { table.old ≡ zeros table.old → table.new ≡ table.old }
{
    let used = table.len().min(8 * part.end);
    let found = first_repeated(part, &mut table[..used]);
    table[..used].fill(0);
    found
}

// The table is the longer of the two: the graph's rows, so that a graph with room for the types takes one block, or the scratch.
fn search(part: &SheetPart<'_>, graph_rows: &mut [u32], scratch: &mut [u32]) -> Option<usize>
    requires { Finished part.now × (scratch_least ≤ length scratch.old) }
    ensures found { first_repeated [] (part_heads part.now) ≡ found_row result }
    ensures kept { graph_rows.old ≡ zeros graph_rows.old → graph_rows.new ≡ graph_rows.old }
{
    if scratch.len() < graph_rows.len() {
        return search_in(part, graph_rows);
    }
    search_in(part, scratch)
}

// From 20 on: nothing is written before every name is seen to be new.
fn lower_known(
    part: &SheetPart<'_>,
    graph_rows: &mut [u32],
    graph_names: &mut [u8],
    scratch: &mut [u32],
) -> Answer
    requires { Finished part.now × ClearedBuffers graph_rows.old graph_names.old × (scratch_least ≤ length scratch.old) }
    ensures { (g : TypeGraph) → GraphOf part.now g → lowered_sheets (answer_of result) graph_rows.new graph_names.new (zeros scratch.old)
        ≡ repeated_or_written (first_repeated [] (part_heads part.now)) g (sheet graph_rows.old graph_names.old) scratch.old }
{
    if let Some(place) = search(part, graph_rows, scratch) {
        return Err(Refused {
            refusal: Refusal::RepeatedName,
            place,
        });
    }
    lower_distinct(part, graph_rows, graph_names)
}

// 13's place, where a simple type is refused: the sheet's count says whether there is one to look for (order 7).
fn unknown_place(part: &SheetPart<'_>) -> Option<usize>
    requires { Finished part.now }
    ensures { let place = refused_place 2 (part_rows part.now 2) in MatchOption result (place ≡ 0) (λ p. (0 < p) × (place ≡ p)) }
{
    if count_in(part.rows) == 0 {
        return None;
    }
    first_refused(part)
}

// From 12 on, into a graph sheet of zeros.
fn lower_cleared(
    part: &SheetPart<'_>,
    root_seen: bool,
    graph_rows: &mut [u32],
    graph_names: &mut [u8],
    scratch: &mut [u32],
) -> Answer
    requires { Finished part.now × ClearedBuffers graph_rows.old graph_names.old × (scratch_least ≤ length scratch.old) }
    ensures { (s : State) → LowersState part.now root_seen s → lowered_sheets (answer_of result) graph_rows.new graph_names.new (zeros scratch.old)
        ≡ lower_finished s (sheet graph_rows.old graph_names.old) scratch.old }
{
    if !root_seen {
        return Err(Refusal::NoRoot.into());
    }
    if let Some(unknown) = unknown_place(part) {
        return Err(Refused {
            refusal: Refusal::UnknownBase,
            place: unknown,
        });
    }
    lower_known(part, graph_rows, graph_names, scratch)
}

// From 12 on graph sheet and scratch are left zero where there is no graph, and the scratch in any case.
fn lower_finished(
    part: &SheetPart<'_>,
    root_seen: bool,
    graph_rows: &mut [u32],
    graph_names: &mut [u8],
    scratch: &mut [u32],
) -> Answer
    requires { Finished part.now × SizedSheet graph_rows.old graph_names.old × (scratch_least ≤ length scratch.old) }
    ensures { (s : State) → LowersState part.now root_seen s → lowered_sheets (answer_of result) graph_rows.new graph_names.new scratch.new
        ≡ lower_finished s (sheet graph_rows.old graph_names.old) scratch.old }
{
    zero_graph(graph_rows, graph_names);
    let answer = lower_cleared(part, root_seen, graph_rows, graph_names, scratch);
    scratch.fill(0);
    answer
}

// 14 changes nothing, so it is judged before anything is cleared.
fn lower_good(
    rows: &[u32],
    names: &[u8],
    graph_rows: &mut [u32],
    graph_names: &mut [u8],
    scratch: &mut [u32],
) -> Answer
    requires { (good (sheet rows.now names.now) ≡ true) × SizedSheet rows.now names.now × SizedSheet graph_rows.old graph_names.old }
    ensures { lowered_sheets (answer_of result) graph_rows.new graph_names.new scratch.new ≡ lower_state (state_of (sheet rows.now names.now)) (sheet graph_rows.old graph_names.old) scratch.old }
{
    let z = row0::row0_at(rows);
    let end = scan::finished_end(rows, z.context, z.rows_used as usize);
    let part = SheetPart { rows, names, end };
    if scratch.len() < LEAST_SCRATCH {
        return Err(Refusal::ShortScratch.into());
    }
    lower_finished(&part, z.root_seen == 1, graph_rows, graph_names, scratch)
}

// Lowers a schema sheet into a graph sheet. Under 1, 2 and 14 nothing is changed; under 12, 13, 20 and 15 graph and scratch are zero.
pub fn lower(
    rows: &[u32],
    names: &[u8],
    graph_rows: &mut [u32],
    graph_names: &mut [u8],
    scratch: &mut [u32],
) -> Answer
    ensures { LowerIs (sheet rows.now names.now) (sheet graph_rows.old graph_names.old) scratch.old (lowered_sheets (answer_of result) graph_rows.new graph_names.new scratch.new) }
{
    if !both_sheet_lengths(rows.len(), names.len(), graph_rows.len(), graph_names.len()) {
        return Err(Refusal::BadLength.into());
    }
    if !xsd_good::is_good(rows, names) {
        return Err(Refusal::NotGood.into());
    }
    lower_good(rows, names, graph_rows, graph_names, scratch)
}
