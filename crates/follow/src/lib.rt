// B's instructions and interrupts: BSTEP, BINT. Each is met by a sound pair and a well formed event: `step` asks for both once.
#![tactic(auto)]

ghost use Rattle.std.specs.Prelude.{◌≡◌, true, false, ◌||◌, [], Some, None};
ghost use Rattle.slots.specs.Slots.{entries, padded, pick};
ghost use Rattle.rules.specs.declared.Event.TheVariants.{BStep, BInt};
ghost use Rattle.rules.specs.Decode.{fetch};
ghost use Rattle.rules.specs.GuestSound.{proper};
ghost use Rattle.rules.specs.Instruction.{complete, is_time};
ghost use Rattle.rules.specs.Messages.{drop_val};
ghost use Rattle.rules.specs.Pair.{idle, is_promoted};
ghost use Rattle.rules.specs.PairSlots.{used_message, zero_message};
ghost use Rattle.tidy.specs.Tidy.{does};

use rules::{EpochNo, Instr, Interrupt, Message, Outcome, Pair, RecordEntry, Refusal, Role};
use tidy::SoundPair;

// ---- BSTEP

// The inbox after B's instruction: TIME removes the first Val of B's epoch (P6).
#[tactic(auto, unfolding(rules::specs::Instruction::is_time))]
fn unread(i: Instr, inbox: &[Message; 128], e: EpochNo) -> [Message; 128]
    ensures { result ≡ pick (is_time i) (padded 128 zero_message (drop_val e (entries used_message inbox.now))) inbox.now }
{
    if matches!(i, Instr::Time(_)) {
        inbox::without_val(inbox, e)
    } else {
        *inbox
    }
}

// "START shows in the record only after promotion"
fn shown_by(role: Role, shown: Option<RecordEntry>) -> Option<RecordEntry>
    ensures { result ≡ pick (is_promoted role) shown None }
{
    if phases::is_promoted(role) {
        shown
    } else {
        None
    }
}

// A well formed instruction on B.
#[tactic(auto, using(crate::proofs::Instruction::bstep_taken), unfolding(rules::specs::Pair::on_b, rules::specs::Pair::ran_on))]
fn b_run(sound: SoundPair, program: &[u8], i: Instr, word: u32) -> Outcome
    requires { (idle sound.pair || complete sound.pair.limit sound.pair.b.guest ≡ false) × (fetch program.now sound.pair.count sound.pair.b.guest.pc ≡ Some i) }
    ensures { result ≡ does program.now sound.pair (BStep word) }
{
    let pair = sound.pair;
    let e = pair.b.epoch;
    // P6: "the first Val of B's epoch in the inbox .., else the word"
    let clock = inbox::first_word(&pair.inbox, 1, e, word);
    let ran = guest::instruction(i, &pair.b.guest, pair.count, pair.limit, clock);
    let mut next = pair;
    next.b.guest = ran.guest;
    next.inbox = unread(i, &pair.inbox, e);
    outcomes::taken(next, shown_by(pair.role, ran.shown))
}

// BSTEP: one instruction on B; epoch 0 or complete 3, instruction at pc bad 8.
#[tactic(auto, using(crate::proofs::Instruction::of_b_step))]
pub fn b_step(sound: SoundPair, program: &[u8], word: u32) -> Outcome
    ensures { result ≡ does program.now sound.pair (BStep word) }
{
    let pair = sound.pair;
    if (pair.b.epoch.0 == 0) | guest::complete(&pair.b.guest, pair.limit) {
        return outcomes::refused(pair, Refusal::OutOfTurn);
    }
    let Some(i) = program::fetch(program, pair.count, pair.b.guest.pc) else {
        return outcomes::refused(pair, Refusal::BadProgram);
    };
    b_run(sound, program, i, word)
}

// ---- BINT

// BINT: "before promotion taken and ignored (P3); after, buffered".
#[tactic(auto, using(crate::proofs::Interrupt::of_b_int), unfolding(rules::specs::Pair::on_b))]
pub fn b_int(sound: SoundPair, i: Interrupt) -> Outcome
    requires { proper i ≡ true }
    ensures { result ≡ does [] sound.pair (BInt i) }
{
    let pair = sound.pair;
    // P3
    if !phases::is_promoted(pair.role) {
        return outcomes::taken(pair, None);
    }
    if !table::has(&pair.b.guest.table, i.op) | buffer::has(&pair.b.buffer, i.op) {
        return outcomes::refused(pair, Refusal::UnknownOperation);
    }
    let mut next = pair;
    slots::push(&mut next.b.buffer, i);
    outcomes::taken(next, None)
}
