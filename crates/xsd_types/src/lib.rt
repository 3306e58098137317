// The schema (002, xsd/types.rs) and the schema sheet (specs/). The tags of its rows and the contexts of row 0, by name.
#![tactic(auto)]

pub mod contexts;
pub mod tags;
