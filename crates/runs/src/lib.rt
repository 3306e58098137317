// Lists of readings and lowerings: the definition of a run and the theorem about it (specs/, proofs/). No code.
#![tactic(auto)]
