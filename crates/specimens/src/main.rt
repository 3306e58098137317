// The specimens of paper 01, run beside their expected results, which the file stdout holds.
// The file stdin holds one on each line: what is asked of a text, a space and the text.
#![tactic(auto)]

use builtin::Builtin;
use names::snake;
use program::{lines, run};
use std::alloc::Global;
use std::io;
use std::io::Write;

// How much of the input is read, and the room for a name that is written.
const LONGEST: u64 = 4096;

const ROOM: usize = 4096;

// The text in quotes; by `write_all`, since it need not be UTF-8.
fn put_quoted<W: Write>(out: &mut W, text: &[u8]) -> io::Result<()> {
    out.write_all(b"`")?;
    out.write_all(text)?;
    out.write_all(b"`")
}

// The name that a conversion writes into the space, snake, pascal or normalised, where it has room.
fn converted<'a>(asked: &[u8], name: &[u8], space: &'a mut [u8]) -> Option<&'a [u8]> {
    let size = match asked {
        [b's', ..] => snake::xml_to_snake_case(name, space),
        [b'p', ..] => names::code_to_pascal_case(name, space),
        _ => names::normalize_type_name(name, space),
    };
    space.get(..size?)
}

fn put_name<W: Write>(alloc: Global, out: &mut W, asked: &[u8], name: &[u8]) -> io::Result<()> {
    let mut space = vec![in alloc; 0; ROOM]?;
    match converted(asked, name, &mut space) {
        Some(written) => put_quoted(out, written),
        None => write!(out, "no room"),
    }
}

// The names of the specimens, which are printed nowhere else: no `Display` of the library's enum.
fn type_word(answer: Option<Builtin>) -> &'static str {
    match answer {
        Some(Builtin::String) => "String",
        Some(Builtin::Bool) => "Bool",
        Some(Builtin::Decimal) => "Decimal",
        Some(Builtin::Date) => "Date",
        Some(Builtin::DateTime) => "DateTime",
        None => "unknown",
    }
}

// Beside that of the other program, which differs in the label and in what is printed where there is no number: a common one would be handed both and be as long.
fn put_number<W: Write>(out: &mut W, number: Option<u64>) -> io::Result<()> {
    match number {
        Some(number) => write!(out, "{number}"),
        None => write!(out, "gives 10"),
    }
}

// The answer: what is asked is `type`, `u32`, `u64` or a conversion.
fn put_answer<W: Write>(alloc: Global, out: &mut W, asked: &[u8], text: &[u8]) -> io::Result<()> {
    match asked {
        [b't', ..] => write!(out, "{}", type_word(builtin::map_builtin(text))),
        [b'u', b'3', ..] => put_number(out, number::parse_u32(text).map(u64::from)),
        [b'u', ..] => put_number(out, number::parse_u64(text)),
        _ => put_name(alloc, out, asked, text),
    }
}

// The allocator, what is written to and a line are arguments of their own: a struct with the `&mut` writer would be made for each line and say no more.
fn put_line<W: Write>(alloc: Global, out: &mut W, line: &[u8]) -> io::Result<()> {
    let asked = lines::before(line, b' ');
    let text = lines::behind(line, b' ');
    out.write_all(asked)?;
    write!(out, " ")?;
    put_quoted(out, text)?;
    write!(out, ": ")?;
    put_answer(alloc, out, asked, text)?;
    writeln!(out)
}

fn put_lines<W: Write>(alloc: Global, out: &mut W, input: &[u8]) -> io::Result<()> {
    for line in input.split_inclusive(|b| *b == b'\n') {
        put_line(alloc, out, lines::before(line, b'\n'))?;
    }
    Ok(())
}

// What cannot be written is passed over: the program ends as it does where all is written. Where there is no memory it ends with status 1.
// Beside that of the other program, which differs in the limit and in the work: the call is what is the same.
fn main(rt: HostRuntime) -> io::Result<()> {
    let done = run::on_input(rt.alloc(), rt.reader(), LONGEST, io::writer(&rt), put_lines);
    run::pass_over_io(done)
}
