// What a line says, done to a sheet.
use crate::output;
use program::buffers::Buffers;
use program::print;
use rows::numbers::wide;
use std::io;
use std::io::Write;
use tape::pairs::mark_at;
use xsd_good::clear;

// What a line asks of a sheet.
#[derive(Clone, Copy, PartialEq, Eq)]
pub enum Task {
    Clear,
    Read,
    Write,
    Print,
    ClearOfLengths,
    ReadOfLengths,
}

// What a line asks, with its text and its numbers, which are the marks of the text where it is read.
#[derive(Clone, Copy)]
pub struct Asked<'a> {
    pub task: Task,
    pub text: &'a [u8],
    pub numbers: &'a [u32],
}

// How many of a sheet's numbers and how many bytes of its names are lent.
#[derive(Clone, Copy)]
pub struct Lent {
    pub rows: usize,
    pub names: usize,
}

// Writes the second number at the place that the first says.
fn write_number(rows: &mut [u32], numbers: &[u32]) {
    let at = wide(mark_at(numbers, 0));
    if let Some(number) = rows.get_mut(at) {
        *number = mark_at(numbers, 1);
    }
}

// The lengths of the sheet, and 1 behind the answer of clearing where the sheet is good afterwards, else 0.
fn put_cleared<W: Write>(out: &mut W, rows: &mut [u32], names: &mut [u8]) -> io::Result<()> {
    write!(out, "{} {}", rows.len(), names.len())?;
    output::write_answer(out, clear::clear(rows, names, 0))?;
    let good = u8::from(xsd_good::is_good(rows, names));
    writeln!(out, " {good}")
}

// The lengths of the sheet and of the tape, and the answer of reading behind a clearing.
fn put_read<W: Write>(
    out: &mut W,
    asked: Asked<'_>,
    rows: &mut [u32],
    names: &mut [u8],
) -> io::Result<()> {
    let Asked { text, numbers, .. } = asked;
    write!(out, "{} {}", rows.len(), names.len())?;
    write!(out, " {} {}", text.len(), numbers.len())?;
    let _ = clear::clear(rows, names, 0);
    output::write_answer(out, xsd_read::read(rows, names, text, numbers))?;
    writeln!(out)
}

// What a line asks, done to a sheet.
fn put_done<W: Write>(
    out: &mut W,
    asked: Asked<'_>,
    rows: &mut [u32],
    names: &mut [u8],
) -> io::Result<()> {
    let Asked {
        task,
        text,
        numbers,
    } = asked;
    match task {
        Task::Clear => output::write_answer(out, clear::clear(rows, names, mark_at(numbers, 2)))?,
        Task::Read => output::write_answer(out, xsd_read::read(rows, names, text, numbers))?,
        Task::Write => write_number(rows, numbers),
        Task::ClearOfLengths => return put_cleared(out, rows, names),
        Task::ReadOfLengths => return put_read(out, asked, rows, names),
        Task::Print => {
            writeln!(out)?;
            return print::write_sheet(out, rows, names);
        }
    }
    writeln!(out)
}

// The same, done to what is lent of the buffers, where they are that long.
pub fn write_part<W: Write>(
    out: &mut W,
    asked: Asked<'_>,
    sheet: &mut Buffers,
    lent: Lent,
) -> io::Result<()> {
    let rows = sheet.rows.as_mut_slice().get_mut(..lent.rows);
    let names = sheet.names.as_mut_slice().get_mut(..lent.names);
    if let (Some(rows), Some(names)) = (rows, names) {
        put_done(out, asked, rows, names)?;
    }
    Ok(())
}
