// The end of P's epoch: PTIME, PEND. Each is met by a sound pair: `step` asks for that once.
#![tactic(auto)]

ghost use Rattle.std.specs.Prelude.{◌≡◌, []};
ghost use Rattle.rules.specs.declared.Event.TheVariants.{PTime, PEnd};
ghost use Rattle.tidy.specs.Tidy.{does};

use rules::{Card, EpochNo, Outcome, Phase, Refusal};
use tidy::SoundPair;

// PTIME: send Tme with the word, keep it as the clock sent, P waits.
#[tactic(auto, using(crate::proofs::Columns::of_p_time), unfolding(rules::specs::Messages::tme))]
pub fn p_time(sound: SoundPair, word: u32) -> Outcome
    ensures { result ≡ does [] sound.pair (PTime word) }
{
    let pair = sound.pair;
    if phases::is_failed(pair.phase) {
        return outcomes::refused(pair, Refusal::Dead);
    }
    if !guest::complete(&pair.p.guest, pair.limit) | phases::is_waiting(pair.phase) {
        return outcomes::refused(pair, Refusal::OutOfTurn);
    }
    let mut next = pair;
    next.phase = Phase::Waiting(word);
    slots::push(&mut next.link, message::worded(3, pair.p.epoch, word));
    outcomes::taken(next, None)
}

// PEND: boundary with the clock sent, send end, next epoch (P2).
#[tactic(auto, using(crate::proofs::Columns::of_p_end), unfolding(rules::specs::Messages::end))]
pub fn p_end(sound: SoundPair) -> Outcome
    ensures { result ≡ does [] sound.pair PEnd }
{
    let pair = sound.pair;
    if phases::is_failed(pair.phase) {
        return outcomes::refused(pair, Refusal::Dead);
    }
    if !phases::is_waiting(pair.phase) {
        return outcomes::refused(pair, Refusal::OutOfTurn);
    }
    let e = pair.p.epoch;
    if e.0 == 65535 {
        return outcomes::refused(pair, Refusal::EpochsUsedUp);
    }
    if slots::count(&pair.link) + (pair.acks as usize) != 0 {
        return outcomes::refused(pair, Refusal::MustWait);
    }
    let clock = phases::clock_sent(pair.phase);
    let mut next = pair;
    next.p = Card {
        guest: boundary::boundary(&pair.p.guest, &pair.p.buffer, clock),
        epoch: EpochNo(e.0 + 1),
        buffer: buffer::empty(),
    };
    next.phase = Phase::Running;
    slots::push(&mut next.link, message::worded(4, e, 0));
    outcomes::taken(next, None)
}
