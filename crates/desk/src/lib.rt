// What the programs at the test bench do.
#![tactic(auto)]

pub mod bench;
