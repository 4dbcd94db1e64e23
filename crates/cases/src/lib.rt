// The worked cases of document 01, over the rules alone: statements in specs/, proofs by computation in proofs/. There is no code.
#![tactic(auto)]
