// The end of B's epoch: BEND. It is met by a sound pair: `step` asks for that once.
#![tactic(auto)]

ghost use Rattle.std.specs.Prelude.{◌≡◌, [], ◌<◌};
ghost use Rattle.slots.specs.Slots.{entries, padded};
ghost use Rattle.rules.specs.declared.Event.TheVariants.{BEnd};
ghost use Rattle.rules.specs.declared.Role.TheVariants.{Following, Failover, Promoted};
ghost use Rattle.rules.specs.Events.{ended};
ghost use Rattle.rules.specs.Messages.{drop_epoch};
ghost use Rattle.rules.specs.Pair.{on_b};
ghost use Rattle.rules.specs.PairSlots.{outcome as outcome_of, seen, stored, used_message, zero_message};
ghost use Rattle.tidy.specs.Tidy.{does};
ghost use Rattle.follow_end.specs.InSlots.{enters_in};

use rules::{Card, EpochNo, Guest, Message, Outcome, Pair, Refusal, Role};
use tidy::SoundPair;

// B with this guest enters its next epoch, its buffer empty, in this role and with this inbox.
#[tactic(auto, unfolding(rules::specs::Pair::on_b, crate::specs::InSlots::enters_in))]
fn enter(pair: Pair, guest: Guest, role: Role, inbox: [Message; 128]) -> Pair
    requires { pair.b.epoch.0 < 65535 }
    ensures { result ≡ on_b pair (enters_in pair.b guest) role inbox }
{
    Pair {
        b: Card {
            guest,
            epoch: EpochNo(pair.b.epoch.0 + 1),
            buffer: buffer::empty(),
        },
        role,
        inbox,
        ..pair
    }
}

// "remove all messages of e_b, enter e_b+1"
fn leave(pair: Pair, guest: Guest, role: Role) -> Pair
    requires { pair.b.epoch.0 < 65535 }
    ensures { result ≡ on_b pair (enters_in pair.b guest) role (padded 128 zero_message (drop_epoch pair.b.epoch (entries used_message pair.inbox))) }
{
    enter(
        pair,
        guest,
        role,
        inbox::without_epoch(&pair.inbox, pair.b.epoch),
    )
}

// BEND while following: it waits where neither case applies.
#[tactic(auto, using(crate::proofs::Turn::of_end_following))]
fn end_following(sound: SoundPair, word: u32) -> Outcome
    requires { sound.pair.b.epoch.0 < 65535 }
    ensures { result ≡ outcome_of sound.pair (stored (ended (seen sound.pair) word Following)) }
{
    let pair = sound.pair;
    let e = pair.b.epoch;
    let guest = turn::turned(&pair.b.guest, e, &pair.inbox, word);
    // P5: "[end, e_b+1] is in the inbox"
    if inbox::has_end(&pair.inbox, EpochNo(e.0 + 1)) {
        return outcomes::taken(leave(pair, guest, Role::Following), None);
    }
    // P7: "or else .. the stop is detected", and failover begins
    if pair.detected {
        return outcomes::taken(leave(pair, guest, Role::Failover), None);
    }
    outcomes::refused(pair, Refusal::MustWait)
}

// BEND in failover: "then the next epoch, promoted".
#[tactic(auto, using(crate::proofs::Turn::failover_goes))]
fn end_failover(sound: SoundPair, word: u32) -> Outcome
    requires { sound.pair.b.epoch.0 < 65535 }
    ensures { result ≡ outcome_of sound.pair (stored (ended (seen sound.pair) word Failover)) }
{
    let pair = sound.pair;
    let guest = turn::turned_last(&pair.b.guest, pair.b.epoch, &pair.inbox, word);
    outcomes::taken(leave(pair, guest, Role::Promoted), None)
}

// BEND once promoted: "boundary with B's own buffer and the word, then the next epoch".
#[tactic(auto, using(crate::proofs::Turn::promoted_goes))]
fn end_promoted(sound: SoundPair, word: u32) -> Outcome
    requires { sound.pair.b.epoch.0 < 65535 }
    ensures { result ≡ outcome_of sound.pair (stored (ended (seen sound.pair) word Promoted)) }
{
    let pair = sound.pair;
    let guest = boundary::boundary(&pair.b.guest, &pair.b.buffer, word);
    outcomes::taken(enter(pair, guest, Role::Promoted, pair.inbox), None)
}

// BEND: epoch not 0 and not complete 3; epoch 65,535 7; then by B's role.
#[tactic(auto, using(crate::proofs::Turn::of_b_end))]
pub fn b_end(sound: SoundPair, word: u32) -> Outcome
    ensures { result ≡ does [] sound.pair (BEnd word) }
{
    let pair = sound.pair;
    let e = pair.b.epoch;
    if (e.0 != 0) & !guest::complete(&pair.b.guest, pair.limit) {
        return outcomes::refused(pair, Refusal::OutOfTurn);
    }
    if e.0 == 65535 {
        return outcomes::refused(pair, Refusal::EpochsUsedUp);
    }
    match pair.role {
        Role::Following => end_following(sound, word),
        Role::Failover => end_failover(sound, word),
        Role::Promoted => end_promoted(sound, word),
    }
}
