// The printing program's work (paper 01, "Specimens"): a tape is cleared, read and lowered, and what came of it is printed.
// What prints has its buffers on the stack: it asks for no memory, so that it fails where the writer does, and to standard output not at all.
#![tactic(auto)]

ghost use Rattle.std.specs.Prelude.{◌≡◌, ◌+◌, ◌<◌, ◌≤◌, length, take, drop, MatchOption, OnOk, IfOk, replicate};
ghost use Rattle.std.specs.Io.KnownBytes.{Appends};
ghost use Rattle.sheet.specs.Calls.{sheet};
ghost use Rattle.rows.specs.Answers.{answer_of};
ghost use Rattle.printing.specs.Work.{WorkIs};
ghost use Rattle.printing.specs.Input.{number_at, too_long, input_of};
ghost use Rattle.printing.specs.Print.{answer_text, lowered_text, made_text, Worked, TapePrinted, numbers_read, InputPrinted};

use program::buffers::Buffers;
use program::print;
use program::stdout::Stdout;
use rows::answers::{Answer, told};
use rows::numbers::wide;
use sheet::limits::MARKS;
use std::alloc::{AllocError, Global};
use std::io;
use std::io::Write;
use xsd_good::clear;

// The lengths of the program's buffers: the numbers of a sheet's rows, the bytes of its names, and the numbers of the scratch.
const ROWS: usize = 16000;

const NAMES: usize = 65536;

const SCRATCH: usize = 4096;

// The answers of reading and of lowering.
#[derive(Clone, Copy)]
pub struct Made {
    pub read: Answer,
    pub lowered: Answer,
}

// Clears the schema sheet, reads the tape into it and lowers it to the graph sheet. No struct of its seven parts of memory:
// each is lent by itself, as to the calls of the library.
pub fn work(
    rows: &mut [u32],
    names: &mut [u8],
    text: &[u8],
    marks: &[u32],
    graph_rows: &mut [u32],
    graph_names: &mut [u8],
    scratch: &mut [u32],
) -> Made
    ensures { WorkIs (sheet rows.old names.old) text.now marks.now (sheet graph_rows.old graph_names.old) scratch.old (answer_of result.read)
        (record { answer = answer_of result.lowered; graph = sheet graph_rows.new graph_names.new; scratch = scratch.new }) (sheet rows.new names.new) }
{
    let _ = clear::clear(rows, names, 0);
    let read = xsd_read::read(rows, names, text, marks);
    let lowered = ir_call::lower(rows, names, graph_rows, graph_names, scratch);
    Made { read, lowered }
}

// The line of an answer: a word, a number and a place.
fn put_answer<W: Write>(out: &mut W, word: &str, answer: Answer) -> io::Result<()>
    ensures { OnOk result (Appends (W.contents out.old) (W.contents out.new) (answer_text word.now (answer_of answer))) }
{
    let mut place = 0;
    let number = told(answer, &mut place);
    writeln!(out, "{word} {number} {place}")
}

// The answer of lowering, and the graph where it is lowered.
fn put_lowered<W: Write>(out: &mut W, lowered: Answer, rows: &[u32], names: &[u8]) -> io::Result<()>
    ensures { OnOk result (Appends (W.contents out.old) (W.contents out.new) (lowered_text lowered (sheet rows.now names.now))) }
{
    put_answer(out, "lower", lowered)?;
    match lowered {
        Ok(_) => print::write_sheet(out, rows, names),
        Err(_) => Ok(()),
    }
}

// The two answers and the graph. A refusal prints its line and stops.
fn put_made<W: Write>(out: &mut W, made: Made, rows: &[u32], names: &[u8]) -> io::Result<()>
    ensures { OnOk result (Appends (W.contents out.old) (W.contents out.new) (made_text made.read made.lowered (sheet rows.now names.now))) }
{
    put_answer(out, "read", made.read)?;
    match made.read {
        Ok(_) => put_lowered(out, made.lowered, rows, names),
        Err(_) => Ok(()),
    }
}

// The scratch of lowering, empty.
fn scratch(alloc: Global) -> Result<Vec<u32>, AllocError>
    ensures { IfOk result (λ scratch. scratch.items ≡ replicate 4096 0) }
{
    vec![in alloc; 0; SCRATCH]
}

// The answers on a tape and its graph, by the work on buffers of the program's lengths.
pub fn graph_of(alloc: Global, text: &[u8], marks: &[u32]) -> Result<(Made, Buffers), AllocError>
    ensures { IfOk result (λ made. Worked text.now marks.now made.0.read made.0.lowered (sheet made.1.rows.items made.1.names.items)) }
{
    let mut schema = Buffers::filled(alloc, 0, ROWS, NAMES)?;
    let mut graph = Buffers::filled(alloc, 0, ROWS, NAMES)?;
    let mut scratch = scratch(alloc)?;
    let made = work(
        &mut schema.rows,
        &mut schema.names,
        text,
        marks,
        &mut graph.rows,
        &mut graph.names,
        &mut scratch,
    );
    Ok((made, graph))
}

// Prints what comes of a tape.
pub fn write_tape<W: Write>(out: &mut W, text: &[u8], marks: &[u32]) -> io::Result<()>
    ensures { OnOk result (TapePrinted text.now marks.now (W.contents out.old) (W.contents out.new)) }
{
    let mut rows = [0; ROWS];
    let mut names = [0; NAMES];
    let mut graph_rows = [0; ROWS];
    let mut graph_names = [0; NAMES];
    let mut scratch = [0; SCRATCH];
    let made = work(
        &mut rows,
        &mut names,
        text,
        marks,
        &mut graph_rows,
        &mut graph_names,
        &mut scratch,
    );
    put_made(out, made, &graph_rows, &graph_names)
}

// The same to standard output.
pub fn put_tape(text: &[u8], marks: &[u32]) {
    let _ = write_tape(&mut Stdout, text, marks);
}

// The number of four bytes from a place on, the first of them the lowest, where all four are there.
#[tactic(auto, unfolding(crate::specs::Input::number_at))]
fn number_at(input: &[u8], at: usize) -> Option<u32>
    ensures { MatchOption result (length input.now < at + 4) (λ n. (at + 4 ≤ length input.now) × (n ≡ number_at at input.now)) }
{
    let bytes = input.get(at..)?.first_chunk()?;
    Some(u32::from_le_bytes(*bytes))
}

// Whether a length that was read is too long.
fn too_long(input: &[u8]) -> bool
    ensures { result ≡ too_long input.now }
{
    let text = number_at(input, 0).is_some_and(|length| 65536 < length);
    let marks = number_at(input, 4).is_some_and(|count| 16384 < count);
    text | marks
}

// What the input is: one with a length too long, one with too few bytes, or a tape with the lengths of its text and its marks. No Result: each of the three
// is an input that the program has a line for.
#[derive(Clone, Copy, PartialEq, Eq)]
pub enum Input {
    TooLong,
    Short,
    Tape(usize, usize),
}

// The two lengths of the header, where it is whole.
fn lengths_of(input: &[u8]) -> Option<(u32, u32)>
    ensures { MatchOption result (length input.now < 8) (λ n. (8 ≤ length input.now) × (n.0 ≡ number_at 0 input.now) × (n.1 ≡ number_at 4 input.now)) }
{
    Some((number_at(input, 0)?, number_at(input, 4)?))
}

fn input_of(input: &[u8]) -> Input
    ensures { result ≡ input_of input.now }
{
    if too_long(input) {
        return Input::TooLong;
    }
    let Some((text, marks)) = lengths_of(input) else {
        return Input::Short;
    };
    let (text, marks) = (wide(text), wide(marks));
    if 8 + text + 4 * marks <= input.len() {
        Input::Tape(text, marks)
    } else {
        Input::Short
    }
}

// The numbers of so many times four bytes, the first of each four the lowest, read into the space. A count, since what is read may be longer than the marks.
fn numbers_of<'a>(bytes: &[u8], count: usize, space: &'a mut [u32]) -> &'a [u32]
    requires { count ≤ length space.old }
    ensures { result.now ≡ numbers_read count bytes.now }
{
    let (fours, _) = bytes.as_chunks();
    let count = fours.len().min(count);
    // By the place, and no `zip` over `iter_mut`: of what is written through an adapter of it a proof knows nothing (the toolchain's LIBRARY.md).
    for at in 0..count {
        space[at] = u32::from_le_bytes(fours[at]);
    }
    &space[..count]
}

// The text and the marks of so many bytes and numbers behind the header.
fn put_behind<W: Write>(out: &mut W, input: &[u8], text: usize, marks: usize) -> io::Result<()>
    requires { (8 + text ≤ length input.now) × (marks ≤ 16384) }
    ensures { OnOk result (TapePrinted (take text (drop 8 input.now)) (numbers_read marks (drop text (drop 8 input.now))) (W.contents out.old) (W.contents out.new)) }
{
    let (_, behind) = input.split_at(8);
    let (text, numbers) = behind.split_at(text);
    let mut space = [0; MARKS];
    write_tape(out, text, numbers_of(numbers, marks, &mut space))
}

// Prints what the program prints for its input.
pub fn write_input<W: Write>(out: &mut W, input: &[u8]) -> io::Result<()>
    ensures { OnOk result (InputPrinted input.now (W.contents out.old) (W.contents out.new)) }
{
    match input_of(input) {
        Input::TooLong => writeln!(out, "read 1 0"),
        Input::Short => writeln!(out, "short"),
        Input::Tape(text, marks) => put_behind(out, input, text, marks),
    }
}

// The same to standard output.
pub fn put_input(input: &[u8]) {
    let _ = write_input(&mut Stdout, input);
}

#[cfg(test)]
mod tests;
