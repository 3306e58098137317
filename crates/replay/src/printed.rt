// What the printing program prints on an input. A line has a letter, a label, a text and numbers:
//     t       the tape of the text and the numbers, which are its marks
//     i       the input of as many bytes as there are numbers, each number a byte
// The label is printed in front. compare/run holds these lines of stdout to a model of paper 01.
use program::{lines, numbers};
use sheet::limits::MARKS;
use std::alloc::{AllocError, Global};
use std::io;
use std::io::Write;

// The longest input that is given in numbers; what stands behind it is left out.
const BYTES: usize = 256;

// What such a line says.
#[derive(Drop)]
pub struct Case<'a> {
    pub label: &'a [u8],
    pub text: &'a [u8],
    pub numbers: Vec<u32>,
}

impl Case<'_> {
    // A line of the label and a colon.
    pub(crate) fn put_label<W: Write>(&self, out: &mut W) -> io::Result<()> {
        out.write_all(self.label)?;
        writeln!(out, ":")
    }
}

pub(crate) fn case_of(alloc: Global, line: &[u8]) -> Result<Case<'_>, AllocError> {
    let rest = lines::behind(line, b';');
    let end = lines::behind(rest, b';');
    let numbers = numbers::collect_numbers(alloc, lines::behind(end, b';'), MARKS)?;
    Ok(Case {
        label: lines::before(rest, b';'),
        text: lines::before(end, b';'),
        numbers,
    })
}

// The bytes that are the numbers, 255 for one that is no byte.
fn bytes_of(alloc: Global, numbers: &[u32]) -> Result<Vec<u8>, AllocError> {
    numbers
        .iter()
        .take(BYTES)
        .map(|number| u8::try_from(*number).unwrap_or(u8::MAX))
        .collect(alloc)
}

// A line of either letter: the text of a tape, or nothing where the numbers are the bytes of the input.
pub fn write_printed<W: Write>(alloc: Global, out: &mut W, line: &[u8]) -> io::Result<()> {
    let case = case_of(alloc, line)?;
    case.put_label(out)?;
    match line {
        [b't', ..] => printing::write_tape(out, case.text, &case.numbers),
        _ => printing::write_input(out, &bytes_of(alloc, &case.numbers)?),
    }
}
