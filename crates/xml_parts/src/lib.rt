// The parts of a schema text that give no event, read by XML 1.0 (Fifth Edition). Each step takes the text and a position, and answers where it ends.
// No struct of text and position: the definitions say `drop at text`, and a step answers a place that the next one takes.
#![tactic(auto)]

pub mod classes;
mod letters;
pub mod prolog;
pub mod steps;
pub mod values;
