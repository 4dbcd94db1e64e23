// Stored forms: how a thing is laid out in bytes, said once for writing and for reading. Definitions in specs/, their laws in proofs/. There is no code.
#![tactic(auto)]
