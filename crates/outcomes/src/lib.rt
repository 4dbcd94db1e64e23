// What comes back: an outcome that is refused or taken, and set-up.
#![tactic(auto)]

ghost use Rattle.std.specs.Prelude.{◌≡◌};
ghost use Rattle.rules.specs.Guest.{fresh};
ghost use Rattle.rules.specs.GuestSlots.{laid_guest};
ghost use Rattle.rules.specs.Events.{refused as refused_of};
ghost use Rattle.rules.specs.PairSlots.{laid as laid_of, outcome as outcome_of, made, zero_pair};
ghost use Rattle.rules.specs.Program.{under};
ghost use Rattle.outcomes.specs.Made.{done, blank as blank_of};

use rules::{
    Card, EpochNo, Guest, Interrupt, Message, OpNo, Outcome, Pair, Phase, RecordEntry, Refusal,
    Role,
};

// A refused pair is the pair as it came, and shows nothing.
#[tactic(auto, unfolding(rules::specs::PairSlots::outcome))]
pub fn refused(pair: Pair, why: Refusal) -> Outcome
    ensures { result ≡ outcome_of pair (refused_of why) }
{
    Outcome {
        answer: Err(why),
        pair,
        shown: None,
    }
}

// Taken: the next pair, and what the devices are shown.
pub fn taken(pair: Pair, shown: Option<RecordEntry>) -> Outcome
    ensures { result ≡ done pair shown }
{
    Outcome {
        answer: Ok(()),
        pair,
        shown,
    }
}

// "Fresh: all zero"
#[tactic(auto, unfolding(rules::specs::GuestSlots::laid_guest, rules::specs::Guest::fresh, slots::specs::Slots::padded))]
fn fresh_guest() -> Guest
    ensures { result ≡ laid_guest fresh }
{
    Guest {
        pc: 0,
        done: 0,
        times: 0,
        armed: false,
        deadline: 0,
        regs: [0; 8],
        mem: [0; 64],
        last: OpNo::default(),
        table: [OpNo::default(); 16],
        queue: [Interrupt::default(); 17],
    }
}

// A pair in which nothing has happened: both guests fresh, P in the epoch given, B in epoch 0, following.
#[tactic(auto, unfolding(rules::specs::PairSlots::laid, rules::specs::PairSlots::laid_card, slots::specs::Slots::padded))]
fn blank(epoch: EpochNo, n: u16, l: u16) -> Pair
    ensures { result ≡ laid_of (blank_of epoch n l) }
{
    let b = Card {
        guest: fresh_guest(),
        epoch: EpochNo(0),
        buffer: buffer::empty(),
    };
    Pair {
        p: Card { epoch, ..b },
        phase: Phase::Running,
        b,
        role: Role::Following,
        detected: false,
        limit: l,
        count: n,
        link: [Message::default(); 58],
        acks: 0,
        inbox: [Message::default(); 128],
    }
}

// "Where nothing is made, zeros .. stand in its place"
#[tactic(auto, unfolding(rules::specs::PairSlots::zero_pair))]
pub fn nothing() -> Pair
    ensures { result ≡ zero_pair }
{
    blank(EpochNo(0), 0, 0)
}

// Set-up: a program and L to a fresh pair, or 8 and zeros in its place.
#[tactic(auto, using(crate::proofs::Made::of_set_up))]
pub fn set_up(program: &[u8], l: u16) -> Outcome
    ensures { result ≡ made (under program.now l) }
{
    if (1 <= l) & (l <= 4096) & program::good_program(program) {
        let n = (program.len() / 4) as u16;
        return taken(blank(EpochNo(1), n, l), None);
    }
    refused(nothing(), Refusal::BadProgram)
}
