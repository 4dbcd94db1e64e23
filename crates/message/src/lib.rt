// One message between the cards: made, and looked at. A slot that holds no message is `Message::default()`.
#![tactic(auto)]

ghost use Rattle.std.specs.Prelude.{◌≡◌};
ghost use Rattle.rules.specs.GuestSlots.{zero_op};
ghost use Rattle.rules.specs.Messages.{int as int_of, interrupt_of, of_kind as of_kind_of};

use rules::{EpochNo, Interrupt, Message};

// A message of epoch e that carries a word alone: Val (1), Tme (3), or end (4) with the word 0.
pub fn worded(kind: u8, e: EpochNo, word: u32) -> Message
    ensures { result ≡ record { kind = kind; status = 0; epoch = e; op = zero_op; word = word } }
{
    Message {
        kind,
        epoch: e,
        word,
        ..Message::default()
    }
}

// [Int, e, i]
pub fn int(e: EpochNo, i: Interrupt) -> Message
    ensures { result ≡ int_of e i }
{
    Message {
        kind: 2,
        status: i.status,
        epoch: e,
        op: i.op,
        word: i.word,
    }
}

// The interrupt that an Int carries.
pub fn interrupt_of(m: Message) -> Interrupt
    ensures { result ≡ interrupt_of m }
{
    Interrupt {
        status: m.status,
        op: m.op,
        word: m.word,
    }
}

// Whether a message is of this kind and of epoch e.
#[tactic(auto, unfolding(rules::specs::Messages::of_kind, rules::specs::Messages::of_epoch))]
pub fn of_kind(m: Message, kind: u8, e: EpochNo) -> bool
    ensures { result ≡ of_kind_of kind e m }
{
    (m.epoch == e) & (m.kind == kind)
}
