// The type graph (003, ir/types.rs) and the graph sheet (specs/). The tags of its rows, by name.
#![tactic(auto)]

pub mod tags;
