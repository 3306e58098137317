// Order 8: the text of a schema, and that it is read back as the schema. Definitions and laws only (specs/, proofs/); the code is in `xsd_write`.
#![tactic(auto)]
