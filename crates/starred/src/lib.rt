// The starred cases of document 01 as one list, and what the bench prints, byte for byte: statements in specs/, proofs in proofs/. There is
// no code.
#![tactic(auto)]
