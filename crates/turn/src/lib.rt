// The boundary of B's epoch, by the messages in its inbox: as P told it, and in failover.
#![tactic(auto)]

ghost use Rattle.std.specs.Prelude.{◌≡◌};
ghost use Rattle.slots.specs.Slots.{entries};
ghost use Rattle.rules.specs.Messages.{ints};
ghost use Rattle.rules.specs.PairSlots.{used_message};
ghost use Rattle.boundary.specs.InSlots.{delivers_in};
ghost use Rattle.turn.specs.InSlots.{hear_in, turned_in, turned_last_in};

use rules::{EpochNo, Guest, Message};

// An Int of epoch e is delivered; any other message is passed by.
#[tactic(auto, unfolding(crate::specs::InSlots::hear_in))]
fn hear(g: Guest, m: Message, e: EpochNo) -> Guest
    ensures { result ≡ hear_in e g m }
{
    if message::of_kind(m, 2, e) {
        return boundary::deliver(g, message::interrupt_of(m));
    }
    g
}

// The Ints of epoch e are delivered, in inbox order.
fn deliver_ints(g: Guest, inbox: &[Message], e: EpochNo) -> Guest
    ensures { result ≡ delivers_in g (ints e (entries used_message inbox.now)) }
{
    slots::fold(inbox, g, |h, m| hear(h, m, e))
}

// The boundary of e as P told it: "its Ints in inbox order and its first Tme there (else the word)".
pub fn turned(g: &Guest, e: EpochNo, inbox: &[Message], word: u32) -> Guest
    ensures { result ≡ turned_in e g.now (entries used_message inbox.now) word }
{
    // "At epoch 0 no boundary is done and no clock taken."
    if e.0 == 0 {
        return *g;
    }
    let heard = deliver_ints(*g, inbox, e);
    let clock = inbox::first_word(inbox, 3, e, word);
    boundary::close(heard, clock)
}

// The failover boundary: "with the Ints received, the first Tme if received, else the word".
pub fn turned_last(g: &Guest, e: EpochNo, inbox: &[Message], word: u32) -> Guest
    ensures { result ≡ turned_last_in e g.now (entries used_message inbox.now) word }
{
    let heard = deliver_ints(*g, inbox, e);
    let clock = inbox::first_word(inbox, 3, e, word);
    // P8: "next an uncertain interrupt .. for each operation still in the table, ascending"; the timer last
    let told = boundary::tell_uncertain(heard);
    boundary::close(told, clock)
}
