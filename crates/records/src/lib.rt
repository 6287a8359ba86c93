// The records of a log, for whatever walks over them: definitions and proofs, no code.
#![tactic(auto)]
