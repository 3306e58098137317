// The printing program of paper 01, "Specimens": reads a tape from standard input, and prints what reading and lowering answer and the graph.
#![tactic(auto)]

use program::{input, run};
use std::io;

// The bytes of the header, the longest text and the longest marks; what stands behind them is ignored.
const LONGEST: u64 = 131080;

// A read that fails ends the input. Where there is no memory for it nothing is printed, and the program ends with status 1. Not by `program::run::on_input`:
// `put_input` prints without a buffer and cannot fail.
fn main(rt: HostRuntime) -> io::Result<()> {
    let mut input = Vec::new(rt.alloc());
    run::pass_over_io(input::read_input(&mut input, rt.reader(), LONGEST))?;
    printing::put_input(&input);
    Ok(())
}
