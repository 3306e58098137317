// Lowering (001, ir/lower.rs). Definitions only (specs/).
#![tactic(auto)]
