// What is promised of every run of the pair: statements in specs/, proofs in proofs/. There is no code.
#![tactic(auto)]
