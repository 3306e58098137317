// Lowering exported.
ghost use Rattle.sheet.specs.Calls.{sheet, answered};
ghost use Rattle.ir_lower.specs.Call.{LowerIs};

use rows::answers::told;

// Lowers a schema sheet to a graph sheet and gives the number; the place, the graph's rows used or the row of a refused type, is stored.
#[unsafe(no_mangle)]
pub extern "C" fn lubiksan_lower(
    rows: &[u32],
    names: &[u8],
    graph_rows: &mut [u32],
    graph_names: &mut [u8],
    scratch: &mut [u32],
    place: &mut usize,
) -> u32
    ensures { LowerIs (sheet rows.now names.now) (sheet graph_rows.old graph_names.old) scratch.old
        (record { answer = answered result place.new; graph = sheet graph_rows.new graph_names.new; scratch = scratch.new }) }
{
    let answer = ir_call::lower(rows, names, graph_rows, graph_names, scratch);
    told(answer, place)
}
