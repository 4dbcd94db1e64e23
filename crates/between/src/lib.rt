// The events between the cards: LINK, ACK, FAIL, DETECT. Each is met by a sound pair: `step` asks for that once.
#![tactic(auto)]

ghost use Rattle.std.specs.Prelude.{◌≡◌, []};
ghost use Rattle.rules.specs.declared.Event.TheVariants.{Link, Ack, Fail, Detect};
ghost use Rattle.tidy.specs.Tidy.{does};

use rules::{Outcome, Phase, Refusal};
use tidy::SoundPair;

// LINK: "oldest message moves to B's inbox (128), acknowledgement sets out (P4)". Refused: "none in flight 4; inbox full 6".
#[tactic(auto, using(crate::proofs::Columns::of_link))]
pub fn link(sound: SoundPair) -> Outcome
    ensures { result ≡ does [] sound.pair Link }
{
    let pair = sound.pair;
    if slots::count(&pair.link) == 0 {
        return outcomes::refused(pair, Refusal::MustWait);
    }
    if 128 <= slots::count(&pair.inbox) {
        return outcomes::refused(pair, Refusal::InboxFull);
    }
    let mut next = pair;
    next.link = slots::without_oldest(&pair.link);
    // It fits: at most 58 messages are unacknowledged.
    next.acks += 1;
    slots::push(&mut next.inbox, slots::oldest(&pair.link));
    outcomes::taken(next, None)
}

// ACK: "P receives one acknowledgement". Refused: "failed 2; none in flight 4".
#[tactic(auto, using(crate::proofs::Columns::of_ack))]
pub fn ack(sound: SoundPair) -> Outcome
    ensures { result ≡ does [] sound.pair Ack }
{
    let pair = sound.pair;
    if phases::is_failed(pair.phase) {
        return outcomes::refused(pair, Refusal::Dead);
    }
    if pair.acks == 0 {
        return outcomes::refused(pair, Refusal::MustWait);
    }
    let mut next = pair;
    next.acks -= 1;
    outcomes::taken(next, None)
}

// FAIL: "P halts for good, clock sent becomes 0": only a phase that waits keeps a clock. Refused: "failed 2".
#[tactic(auto, using(crate::proofs::Columns::of_fail), unfolding(rules::specs::Pair::is_failed, rules::specs::Pair::halted))]
pub fn fail(sound: SoundPair) -> Outcome
    ensures { result ≡ does [] sound.pair Fail }
{
    let pair = sound.pair;
    match pair.phase {
        Phase::Failed => outcomes::refused(pair, Refusal::Dead),
        Phase::Running | Phase::Waiting(_) => outcomes::taken(
            phases::with_phase(pair, Phase::Failed),
            None,
        ),
    }
}

// DETECT: "B learns of it". Refused: "not failed, or detected 3; message in flight 4".
#[tactic(auto, using(crate::proofs::Columns::of_detect), unfolding(rules::specs::Pair::noticed))]
pub fn detect(sound: SoundPair) -> Outcome
    ensures { result ≡ does [] sound.pair Detect }
{
    let pair = sound.pair;
    if !phases::is_failed(pair.phase) | pair.detected {
        return outcomes::refused(pair, Refusal::OutOfTurn);
    }
    if slots::count(&pair.link) != 0 {
        return outcomes::refused(pair, Refusal::MustWait);
    }
    let mut next = pair;
    next.detected = true;
    outcomes::taken(next, None)
}
