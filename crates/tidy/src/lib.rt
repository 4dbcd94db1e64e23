// A sound pair as the events meet it, and the laws that lead from its arrays to the rules: definitions in specs/, laws in proofs/.
#![tactic(auto)]

ghost use Rattle.tidy.specs.Tidy.{Tidy};

use rules::Pair;

// A pair that was found sound. The events take this and no `Pair`, so that none of them asks again.
#[derive(Clone, Copy)]
pub struct SoundPair {
    pub pair: Pair,
    ghost tidy: { Tidy pair },
}
