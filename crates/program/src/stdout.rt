// Standard output as a writer that cannot fail. std's writers of it want the runtime, which only a `main` has, and say whether they failed.
use crate::STDOUT_FILENO;
use std::io::{Result, Write};

// What cannot be written is passed over.
#[derive(Drop)]
pub struct Stdout;

impl Write for Stdout {
    fn write(&mut self, buf: &[u8]) -> Result<usize> {
        io::write_all(STDOUT_FILENO, buf);
        Ok(buf.len())
    }

    fn flush(&mut self) -> Result<()> {
        Ok(())
    }
}
