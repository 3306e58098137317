// Order 6: only what the message uses.
ghost use Rattle.sheet.specs.Calls.{sheet, answered};
ghost use Rattle.ir_reduce.specs.Call.{Reduction};

use rows::answers::told;

// Writes the graph that the roots reach and gives the number; the place, the target's rows used, is stored.
#[unsafe(no_mangle)]
pub extern "C" fn lubiksan_reduce(
    graph_rows: &[u32],
    graph_names: &[u8],
    rows: &mut [u32],
    names: &mut [u8],
    place: &mut usize,
) -> u32
    ensures { Reduction (sheet graph_rows.now graph_names.now) (sheet rows.old names.old) (answered result place.new) (sheet rows.new names.new) }
{
    told(
        ir_reduce::call::reduce(graph_rows, graph_names, rows, names),
        place,
    )
}
