// Order 6: a graph reduced to what its roots reach. `reach`: the places that are reached, by a queue of those that are marked.
// What is known of the graph (`IsGraph`), of the table (`IsIndex`) and of the lengths (`lengths_fit`) stands in the contracts: part and table are structs of crates
// below this one, which know nothing of a graph's form.
#![tactic(auto)]

pub mod call;
pub mod index;
pub mod place;
pub mod reach;
pub mod write;
