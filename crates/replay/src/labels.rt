// The labels of a lowered graph. A line has the letter g, a label, a text and numbers, which are the marks of its tape. The tape is read and lowered as by the
// printing program, and both label calls are made for each used row of the graph, for the row behind them and for the one behind the sheet: the row, the
// number and the part, in quotes. compare/run holds these lines of stdout to a model of paper 01.
use crate::printed;
use program::buffers::Buffers;
use rows::numbers::wide;
use sheet::limits::ROW;
use std::alloc::Global;
use std::io;
use std::io::Write;
use tape::pairs::mark_at;

// The words that stand in a label for the built-in types.
const WORDS: &[u8] = b"String\nBool\nDecimal\nDate\nDateTime\n";

fn put_label<W: Write>(out: &mut W, graph: &Buffers, k: usize) -> io::Result<()> {
    let number = ir_label::label_number(&graph.rows, &graph.names, WORDS, k);
    write!(out, "{k} {number} `")?;
    out.write_all(ir_label::label(&graph.rows, &graph.names, WORDS, k))?;
    writeln!(out, "`")
}

// Of the used rows, of the one behind them, and of the one behind the sheet.
fn put_labels<W: Write>(out: &mut W, graph: &Buffers) -> io::Result<()> {
    let used = wide(mark_at(&graph.rows, 1));
    for k in 0..used {
        put_label(out, graph, k)?;
    }
    put_label(out, graph, used)?;
    put_label(out, graph, graph.rows.len() / ROW)
}

pub fn write_labels<W: Write>(alloc: Global, out: &mut W, line: &[u8]) -> io::Result<()> {
    let case = printed::case_of(alloc, line)?;
    case.put_label(out)?;
    let (_, graph) = printing::graph_of(alloc, case.text, &case.numbers)?;
    put_labels(out, &graph)
}
