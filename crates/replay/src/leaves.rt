// The answers of the text leaves on a text, in one line. These lines of stdout are the answers of the Rust (compare/VECTORS.md).
use names::{same, snake};
use std::alloc::Global;
use std::io;
use std::io::Write;

// The room for a name that is written.
const ROOM: usize = 4096;

// A label and a text; by `write_all`, since a text need not be UTF-8.
fn put<W: Write>(out: &mut W, label: &str, text: &[u8]) -> io::Result<()> {
    write!(out, "{label}")?;
    out.write_all(text)
}

// Beside that of the other program, which differs in the label and in what is printed where there is no number: a common one would be handed both and be as long.
fn put_number<W: Write>(out: &mut W, label: &str, number: Option<u64>) -> io::Result<()> {
    match number {
        Some(number) => write!(out, "{label}{number}"),
        None => write!(out, "{label}-"),
    }
}

// The bytes of the space that a writer counted.
fn put_written<W: Write>(
    out: &mut W,
    label: &str,
    written: Option<usize>,
    space: &[u8],
) -> io::Result<()> {
    match written.and_then(|size| space.get(..size)) {
        Some(name) => put(out, label, name),
        None => write!(out, "{label}no room"),
    }
}

fn put_names<W: Write>(alloc: Global, out: &mut W, line: &[u8]) -> io::Result<()> {
    let mut space = vec![in alloc; 0; ROOM]?;
    let normal = names::normalize_type_name(line, &mut space);
    put_written(out, " normal=", normal, &space)?;
    let snake = snake::xml_to_snake_case(line, &mut space);
    put_written(out, " snake=", snake, &space)?;
    let pascal = names::code_to_pascal_case(line, &mut space);
    put_written(out, " pascal=", pascal, &space)
}

// All answers for a line, the line before it at hand.
pub fn write_leaves<W: Write>(
    alloc: Global,
    out: &mut W,
    before: &[u8],
    line: &[u8],
) -> io::Result<()> {
    put(out, "local=", text::local_name(line))?;
    put_number(out, " u32=", number::parse_u32(line).map(u64::from))?;
    put_number(out, " u64=", number::parse_u64(line))?;
    let builtin = builtin::reference_number(builtin::map_builtin(line));
    write!(out, " builtin={builtin}")?;
    put_names(alloc, out, line)?;
    let same = u8::from(same::same_normalized(before, line));
    writeln!(out, " same={same}")
}
