// One event on a pair: the tests in front, and then the event's own function.
#![tactic(auto)]

ghost use Rattle.std.specs.Prelude.{◌≡◌, false};
ghost use Rattle.rules.specs.Events.{malformed};
ghost use Rattle.rules.specs.PairSlots.{apply, outcome};
ghost use Rattle.rules.specs.Bytes.{stepped};
ghost use Rattle.tidy.specs.Tidy.{does};

use rules::{Event, Outcome, Pair, Refusal};
use tidy::SoundPair;

// A well formed event on a sound pair, under a program of 4N bytes: 01's table, row by row.
#[tactic(auto, using(crate::proofs::Front::of_handle))]
fn handle(program: &[u8], sound: SoundPair, ev: Event) -> Outcome
    requires { malformed ev ≡ false }
    ensures { result ≡ does program.now sound.pair ev }
{
    match ev {
        Event::PStep(word) => first::p_step(sound, program, word),
        Event::PInt(i) => first::p_int(sound, i),
        Event::PTime(word) => first_end::p_time(sound, word),
        Event::PEnd => first_end::p_end(sound),
        Event::Link => between::link(sound),
        Event::Ack => between::ack(sound),
        Event::Fail => between::fail(sound),
        Event::Detect => between::detect(sound),
        Event::BStep(word) => follow::b_step(sound, program, word),
        Event::BEnd(word) => follow_end::b_end(sound, word),
        Event::BInt(i) => follow::b_int(sound, i),
    }
}

// "Order for an event: 1, 11, program length 8, the event's column, bad instruction 8"
#[tactic(auto, using(crate::proofs::Front::of_take))]
fn take(program: &[u8], pair: Pair, ev: Event) -> Outcome
    ensures { result ≡ outcome pair (apply program.now pair ev) }
{
    if event::malformed(ev) {
        return outcomes::refused(pair, Refusal::Malformed);
    }
    if !pair::sound(&pair) {
        return outcomes::refused(pair, Refusal::Unsound);
    }
    if program.len() != 4 * (pair.count as usize) {
        return outcomes::refused(pair, Refusal::BadProgram);
    }
    handle(program, SoundPair { pair }, ev)
}

// One event, from its bytes to the outcome: the answer, the next pair (refused: the very pair that came) and at most one record entry.
#[tactic(auto, using(crate::proofs::Front::of_step))]
pub fn step(program: &[u8], pair: Pair, event: &[u8]) -> Outcome
    ensures { result ≡ stepped program.now pair event.now }
{
    match event::read_event(event) {
        Some(ev) => take(program, pair, ev),
        None => outcomes::refused(pair, Refusal::Malformed),
    }
}
