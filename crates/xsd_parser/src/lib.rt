// Reading a tape into a schema sheet (000, xsd/parser.rs; specs/). The kinds of an event and the words of tags, by name.
#![tactic(auto)]

pub mod kinds;
pub mod words;
