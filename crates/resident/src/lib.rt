// The resident monitor: the pair stays in its own store.
#![tactic(auto)]

ghost use Rattle.resident.specs.Applies.{Applies};

use rules::{Answer, Pair, RecordEntry};

// What an event gives beside the pair that it leaves: the answer, and what the devices are shown.
#[derive(Clone, Copy)]
pub struct Applied {
    pub answer: Answer,
    pub shown: Option<RecordEntry>,
}

// "The resident monitor applies an event to the pair in its own store, without copying it out."
pub fn apply(pair: &mut Pair, program: &[u8], event: &[u8]) -> Applied
    ensures { Applies program.now pair.old event.now result pair.new }
{
    let outcome = monitor::step(program, *pair, event);
    *pair = outcome.pair;
    Applied {
        answer: outcome.answer,
        shown: outcome.shown,
    }
}
