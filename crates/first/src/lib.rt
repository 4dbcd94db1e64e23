// P's instructions and interrupts: PSTEP, PINT. Each is met by a sound pair and a well formed event: `step` asks for both once.
#![tactic(auto)]

ghost use Rattle.std.specs.Prelude.{◌≡◌, true, false, [], Some};
ghost use Rattle.slots.specs.Slots.{pick, pushed};
ghost use Rattle.rules.specs.declared.Event.TheVariants.{PStep, PInt};
ghost use Rattle.rules.specs.Decode.{fetch};
ghost use Rattle.rules.specs.GuestSound.{proper};
ghost use Rattle.rules.specs.Instruction.{complete, is_time};
ghost use Rattle.rules.specs.Messages.{val as val_of};
ghost use Rattle.rules.specs.Pair.{is_failed};
ghost use Rattle.rules.specs.PairSlots.{used_message};
ghost use Rattle.tidy.specs.Tidy.{does};

use rules::{EpochNo, Instr, Interrupt, Message, Outcome, Refusal};
use tidy::SoundPair;

// PINT: buffer, send Int (P1).
#[tactic(auto, using(crate::proofs::Columns::of_p_int))]
pub fn p_int(sound: SoundPair, i: Interrupt) -> Outcome
    requires { proper i ≡ true }
    ensures { result ≡ does [] sound.pair (PInt i) }
{
    let pair = sound.pair;
    if phases::is_failed(pair.phase) {
        return outcomes::refused(pair, Refusal::Dead);
    }
    if !table::has(&pair.p.guest.table, i.op) | buffer::has(&pair.p.buffer, i.op) {
        return outcomes::refused(pair, Refusal::UnknownOperation);
    }
    let mut next = pair;
    slots::push(&mut next.p.buffer, i);
    slots::push(&mut next.link, message::int(pair.p.epoch, i));
    outcomes::taken(next, None)
}

// What P's instruction sends: TIME its Val (P0), any other nothing.
#[tactic(auto, unfolding(rules::specs::Instruction::is_time, rules::specs::Messages::val))]
fn send(link: &mut [Message], i: Instr, e: EpochNo, word: u32)
    ensures { link.new ≡ pick (is_time i) (pushed used_message link.old (val_of e word)) link.old }
{
    if matches!(i, Instr::Time(_)) {
        slots::push(link, message::worded(1, e, word));
    }
}

// A well formed instruction on P.
#[tactic(auto, using(crate::proofs::Columns::pstep_taken))]
fn p_run(sound: SoundPair, program: &[u8], i: Instr, word: u32) -> Outcome
    requires { (is_failed sound.pair.phase ≡ false) × (complete sound.pair.limit sound.pair.p.guest ≡ false) × (fetch program.now sound.pair.count sound.pair.p.guest.pc ≡ Some i) }
    ensures { result ≡ does program.now sound.pair (PStep word) }
{
    let pair = sound.pair;
    let ran = guest::instruction(i, &pair.p.guest, pair.count, pair.limit, word);
    let mut next = pair;
    next.p.guest = ran.guest;
    send(&mut next.link, i, pair.p.epoch, word);
    outcomes::taken(next, ran.shown)
}

// PSTEP: one instruction on P. TIME reads the word and sends Val (P0); START adds to the record.
#[tactic(auto, using(crate::proofs::Columns::of_p_step))]
pub fn p_step(sound: SoundPair, program: &[u8], word: u32) -> Outcome
    ensures { result ≡ does program.now sound.pair (PStep word) }
{
    let pair = sound.pair;
    if phases::is_failed(pair.phase) {
        return outcomes::refused(pair, Refusal::Dead);
    }
    if guest::complete(&pair.p.guest, pair.limit) {
        return outcomes::refused(pair, Refusal::OutOfTurn);
    }
    let Some(i) = program::fetch(program, pair.count, pair.p.guest.pc) else {
        return outcomes::refused(pair, Refusal::BadProgram);
    };
    p_run(sound, program, i, word)
}
