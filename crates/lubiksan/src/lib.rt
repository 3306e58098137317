// The calls exported to C and Rust, as a static library. A slice passes as a pointer and a length. include/lubiksan.h declares them. Numbers stand for what is
// true or false, for what is missing, for kinds and for refusals, and what is stored goes through references: C has no Option, no Result and no bool here.
// What C lends goes on as it is lent, part by part, to the call that does the work: only behind its tests of lengths can a part or a writer be made.
#![tactic(auto)]

mod by_column;
mod form;
mod judging;
mod label;
mod leaves;
mod lowering;
mod reading;
mod reducing;
mod text_tape;
mod version;
mod writing;
