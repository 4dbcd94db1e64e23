// Which phase a card is in, and the pair with P in another.
#![tactic(auto)]

ghost use Rattle.std.specs.Prelude.{◌≡◌};
ghost use Rattle.rules.specs.Pair.{is_failed, is_waiting, is_following, is_promoted, clock_sent};
ghost use Rattle.phases.specs.Phase.{in_phase};

use rules::{Pair, Phase, Role};

// P has stopped for good.
#[tactic(auto, unfolding(rules::specs::Pair::is_failed))]
pub fn is_failed(phase: Phase) -> bool
    ensures { result ≡ is_failed phase }
{
    matches!(phase, Phase::Failed)
}

// P has sent its clock and waits for the acknowledgements.
#[tactic(auto, unfolding(rules::specs::Pair::is_waiting))]
pub fn is_waiting(phase: Phase) -> bool
    ensures { result ≡ is_waiting phase }
{
    matches!(phase, Phase::Waiting(_))
}

// The clock that P has sent while it waits, else 0.
#[tactic(auto, unfolding(rules::specs::Pair::clock_sent))]
pub fn clock_sent(phase: Phase) -> u32
    ensures { result ≡ clock_sent phase }
{
    match phase {
        Phase::Waiting(clock) => clock,
        Phase::Running | Phase::Failed => 0,
    }
}

// B follows P.
#[tactic(auto, unfolding(rules::specs::Pair::is_following))]
pub fn is_following(role: Role) -> bool
    ensures { result ≡ is_following role }
{
    matches!(role, Role::Following)
}

// B drives the devices.
#[tactic(auto, unfolding(rules::specs::Pair::is_promoted))]
pub fn is_promoted(role: Role) -> bool
    ensures { result ≡ is_promoted role }
{
    matches!(role, Role::Promoted)
}

// The pair with P in another phase.
pub fn with_phase(pair: Pair, phase: Phase) -> Pair
    ensures { result ≡ in_phase pair phase }
{
    Pair { phase, ..pair }
}
