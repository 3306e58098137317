// XML 1.0 (Fifth Edition) as far as order 1 reads it, and the tape of a text. Definitions only (specs/).
#![tactic(auto)]
