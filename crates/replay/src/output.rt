// An answer as it is printed.
use rows::answers::{Answer, told};
use std::io;
use std::io::Write;

// The number of an answer and its place, each behind a space. printing has a line of its own, with a word before and a newline behind, which its contract says as one text.
pub fn write_answer<W: Write>(out: &mut W, answer: Answer) -> io::Result<()> {
    let mut place = 0;
    let number = told(answer, &mut place);
    write!(out, " {number} {place}")
}
