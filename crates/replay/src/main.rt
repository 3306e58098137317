// Replays cases beside the expected lines, which the file stdout holds: the limits of paper 01, by hand from the paper; what the printing program
// prints, and the labels of graphs, by a model of the paper; the answers of the text leaves, by the Rust. One program, since each links all that it calls.
// The file stdin holds a case on each line, and a line `= NAME` before each part. Of the limits: what is done, numbers, a text and a label, with `;`
// between them. What is done, by the first letter of a line:
//     a number     the record at that place of the marks is printed (records.rt)
//     value        the label is looked up in the attributes of the first tag
//     sheet        a sheet of as many numbers and bytes as the two numbers say is cleared and tested (lengths.rt)
//     lengths      the same is cleared and read, with a text and marks as long as two more numbers say
//     clear        the kept sheet gets the lengths that the two numbers say, and is cleared with the third as the choice, 0 where it is absent (sheets.rt)
//     write        the second number is written into its rows, at the place that the first says
//     read         the text is read into it, with the numbers as its marks
//     print        its used rows and its used names are printed
//     t, i         the printing program's lines on a tape or on bytes (printed.rt)
//     g            the labels of the rows of a tape's graph (labels.rt)
//     n            the leaves' answers on the text, which begins behind the first `;` (leaves.rt)
// The number and the place of a call stand behind its label.
#![tactic(auto)]

mod labels;
mod leaves;
mod lengths;
mod output;
mod printed;
mod records;
mod sheets;

use program::buffers::Buffers;
use program::{lines, numbers, run};
use rows::numbers::wide;
use sheet::limits::{NAMES, ROWS};
use sheets::{Asked, Lent, Task};
use std::alloc::{AllocError, Global};
use std::io;
use std::io::Write;
use tape::pairs::mark_at;

// How much of the input is read, and how many numbers of a line about a limit.
const LONGEST: u64 = 262144;

const NUMBERS: usize = 1024;

// The kept sheet, and how much of it is lent.
#[derive(Drop)]
struct Kept {
    sheet: Buffers,
    lent: Lent,
}

impl Kept {
    // The buffers at the greatest lengths.
    fn new(alloc: Global) -> Result<Kept, AllocError> {
        let sheet = Buffers::filled(alloc, 0, ROWS, NAMES)?;
        let lent = Lent { rows: 0, names: 0 };
        Ok(Kept { sheet, lent })
    }

    // Does what is asked. Clearing sets the lengths.
    fn put_done<W: Write>(&mut self, out: &mut W, asked: Asked<'_>) -> io::Result<()> {
        if asked.task == Task::Clear {
            self.lent = Lent {
                rows: wide(mark_at(asked.numbers, 0)),
                names: wide(mark_at(asked.numbers, 1)),
            };
        }
        sheets::write_part(out, asked, &mut self.sheet, self.lent)
    }
}

// A line about no sheet; the name of a part is printed as it stands.
fn put_other<W: Write>(out: &mut W, line: &[u8], numbers: &[u32], end: &[u8]) -> io::Result<()> {
    match line {
        [b'=', ..] => {
            out.write_all(line)?;
            writeln!(out)
        }
        _ => records::write_case(
            out,
            lines::before(line, b';'),
            numbers,
            lines::before(end, b';'),
            lines::behind(end, b';'),
        ),
    }
}

// What the first letter of a line asks of the kept sheet.
fn kept_task(line: &[u8]) -> Option<Task> {
    match line {
        [b'c', ..] => Some(Task::Clear),
        [b'w', ..] => Some(Task::Write),
        [b'r', ..] => Some(Task::Read),
        [b'p', ..] => Some(Task::Print),
        _ => None,
    }
}

// What it asks of a sheet of the lengths that the line says.
fn lengths_task(line: &[u8]) -> Option<Task> {
    match line {
        [b's', ..] => Some(Task::ClearOfLengths),
        [b'l', ..] => Some(Task::ReadOfLengths),
        _ => None,
    }
}

// A line about the kept sheet: the label, and what is done; the end of the line is its text and its label.
fn put_kept<W: Write>(
    out: &mut W,
    task: Task,
    numbers: &[u32],
    end: &[u8],
    kept: &mut Kept,
) -> io::Result<()> {
    out.write_all(lines::behind(end, b';'))?;
    write!(out, ":")?;
    let text = lines::before(end, b';');
    kept.put_done(
        out,
        Asked {
            task,
            text,
            numbers,
        },
    )
}

// A line about a limit.
fn put_limit<W: Write>(alloc: Global, out: &mut W, line: &[u8], kept: &mut Kept) -> io::Result<()> {
    let rest = lines::behind(line, b';');
    let numbers = numbers::collect_numbers(alloc, lines::before(rest, b';'), NUMBERS)?;
    let end = lines::behind(rest, b';');
    if let Some(task) = kept_task(line) {
        return put_kept(out, task, &numbers, end, kept);
    }
    match lengths_task(line) {
        Some(task) => lengths::write_lengths(alloc, out, task, &numbers),
        None => put_other(out, line, &numbers, end),
    }
}

// A line; the line before it is at hand, since the leaves compare the two texts. Allocator, writer and line are arguments of their own: a struct with the `&mut` writer would
// be made for each line and say no more.
fn put_line<W: Write>(
    alloc: Global,
    out: &mut W,
    previous: &[u8],
    line: &[u8],
    kept: &mut Kept,
) -> io::Result<()> {
    match line {
        [b'n', ..] => {
            let before = lines::behind(previous, b';');
            leaves::write_leaves(alloc, out, before, lines::behind(line, b';'))
        }
        [b't' | b'i', ..] => printed::write_printed(alloc, out, line),
        [b'g', ..] => labels::write_labels(alloc, out, line),
        _ => put_limit(alloc, out, line, kept),
    }
}

// Before the first line, which is the name of a part, there is none; what stands for it is not looked at.
fn put_lines<W: Write>(alloc: Global, out: &mut W, input: &[u8]) -> io::Result<()> {
    let mut previous = input;
    let mut kept = Kept::new(alloc)?;
    for piece in input.split_inclusive(|b| *b == b'\n') {
        let line = lines::before(piece, b'\n');
        put_line(alloc, out, previous, line, &mut kept)?;
        previous = line;
    }
    Ok(())
}

// What cannot be written is passed over: the program ends as it does where all is written. Where there is no memory it ends with status 1.
// Beside that of the other program, which differs in the limit and in the work: the call is what is the same.
fn main(rt: HostRuntime) -> io::Result<()> {
    let done = run::on_input(rt.alloc(), rt.reader(), LONGEST, io::writer(&rt), put_lines);
    run::pass_over_io(done)
}
