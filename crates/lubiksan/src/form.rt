// The judgement of a graph's form exported.
ghost use Rattle.sheet.specs.Calls.{sheet, answered};
ghost use Rattle.graph_form.specs.Call.{FormIs};

use sheet::refusal::returned_number;

// Gives the number of a graph's form, 0, 1 or 21; the place, 0, is stored.
#[unsafe(no_mangle)]
pub extern "C" fn lubiksan_graph_form(
    graph_rows: &[u32],
    graph_names: &[u8],
    place: &mut usize,
) -> u32
    ensures { FormIs (sheet graph_rows.now graph_names.now) (answered result place.new) }
{
    *place = 0;
    returned_number(graph_form::judge_graph(graph_rows, graph_names))
}
