// Rows of ten numbers with a names buffer: the form that both sheets of paper 01 share (specs/). The limits and the refusals, by name.
#![tactic(auto)]

pub mod limits;
pub mod refusal;
