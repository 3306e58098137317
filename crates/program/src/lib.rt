// What the programs share: input read to its end, a text cut at a byte, a list of numbers, a sheet's buffers, a printed sheet.
#![tactic(auto)]

pub mod buffers;
pub mod input;
pub mod lines;
pub mod numbers;
pub mod print;
pub mod run;
pub mod stdout;
#[cfg(test)]
mod tests;

// The file of standard output.
pub const STDOUT_FILENO: i32 = 1;
