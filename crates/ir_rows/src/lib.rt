// Lowering told row by row: definitions and laws alone.
#![tactic(auto)]
