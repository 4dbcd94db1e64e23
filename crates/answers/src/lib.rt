// 01's number of an answer, for whoever needs numbers: what is printed, and what is handed to C.
#![tactic(auto)]

ghost use Rattle.std.specs.Prelude.{◌≡◌};
ghost use Rattle.rules.specs.PairSlots.{answer_number};

use rules::Answer;

// "the refusal or 0"
#[tactic(auto, unfolding(rules::specs::PairSlots::answer_number))]
pub fn number(answer: Answer) -> u8
    ensures { result ≡ answer_number answer }
{
    match answer {
        Ok(()) => 0,
        Err(why) => u8::from(why),
    }
}
