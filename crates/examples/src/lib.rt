// Examples by computation that need reading and lowering together. Definitions only (specs/).
#![tactic(auto)]
