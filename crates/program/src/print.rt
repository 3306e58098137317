// A sheet printed as paper 01 has it: the used rows, a line each, then the used names and a newline.
ghost use Rattle.std.specs.Prelude.{◌≡◌, OnOk};
ghost use Rattle.std.specs.Io.KnownBytes.{Appends};
ghost use Rattle.sheet.specs.Calls.{sheet};
ghost use Rattle.program.specs.Print.{gap, numbers_text, printed_rows, printed_names, names_text, sheet_text};

use crate::stdout::Stdout;
use rows::numbers::wide;
use sheet::limits::ROW;
use std::io;
use std::io::Write;
use tape::pairs::mark_at;

// What stands behind the number at a place of its row: a space, or a newline behind the last.
#[tactic(auto, unfolding(crate::specs::Print::gap))]
fn gap(at: usize) -> &'static str
    ensures { result.now ≡ gap at }
{
    if at == ROW - 1 { "\n" } else { " " }
}

fn put_row<W: Write>(out: &mut W, row: &[u32]) -> io::Result<()>
    ensures { OnOk result (Appends (W.contents out.old) (W.contents out.new) (numbers_text 0 row.now)) }
{
    for (at, number) in row.iter().enumerate() {
        write!(out, "{number}{}", gap(at))?;
    }
    Ok(())
}

// The first rows, as many as are used. A count and no slice: more may be used than there are.
fn put_rows<W: Write>(out: &mut W, rows: &[u32], used: usize) -> io::Result<()>
    ensures { OnOk result (Appends (W.contents out.old) (W.contents out.new) (printed_rows used rows.now)) }
{
    for row in rows.chunks(ROW).take(used) {
        put_row(out, row)?;
    }
    Ok(())
}

// The first names, as many as are used, or none where more are used than there are.
#[tactic(auto, unfolding(crate::specs::Print::printed_names))]
fn used_names(names: &[u8], used: usize) -> &[u8]
    ensures { result.now ≡ printed_names used names.now }
{
    names.get(..used).unwrap_or(&[])
}

fn put_names<W: Write>(out: &mut W, names: &[u8], used: usize) -> io::Result<()>
    ensures { OnOk result (Appends (W.contents out.old) (W.contents out.new) (names_text used names.now)) }
{
    out.write_all(used_names(names, used))?;
    out.write_all(b"\n")
}

#[tactic(auto, unfolding(crate::specs::Print::sheet_text))]
pub fn write_sheet<W: Write>(out: &mut W, rows: &[u32], names: &[u8]) -> io::Result<()>
    ensures { OnOk result (Appends (W.contents out.old) (W.contents out.new) (sheet_text (sheet rows.now names.now))) }
{
    put_rows(out, rows, wide(mark_at(rows, 1)))?;
    put_names(out, names, wide(mark_at(rows, 2)))
}

// The same to standard output.
pub fn put_sheet(rows: &[u32], names: &[u8]) {
    let _ = write_sheet(&mut Stdout, rows, names);
}
