// B's inbox, 128 slots: the messages that B has received and not used up, the oldest first. What all lists of slots share is in crate slots.
#![tactic(auto)]

ghost use Rattle.std.specs.Prelude.{◌≡◌};
ghost use Rattle.slots.specs.Slots.{entries, padded};
ghost use Rattle.rules.specs.Messages.{has_end, drop_val, drop_epoch};
ghost use Rattle.rules.specs.PairSlots.{used_message, zero_message};
ghost use Rattle.inbox.specs.Words.{word_of};

use rules::{EpochNo, Message};

// Whether [end, e] is in the inbox.
#[tactic(auto, unfolding(rules::specs::Messages::has_end, rules::specs::Messages::is_end))]
pub fn has_end(inbox: &[Message], e: EpochNo) -> bool
    ensures { result ≡ has_end e (entries used_message inbox.now) }
{
    slots::any(inbox, |m| message::of_kind(m, 4, e))
}

// The word of the first message of this kind and of epoch e, else the word given: a Val's (1) or a Tme's (3) clock.
pub fn first_word(inbox: &[Message], kind: u8, e: EpochNo, word: u32) -> u32
    ensures { result ≡ word_of kind e (entries used_message inbox.now) word }
{
    match slots::find(inbox, |m| message::of_kind(m, kind, e)) {
        Some(m) => m.word,
        None => word,
    }
}

// The inbox without the first Val of epoch e: the messages behind it move up, and zeros stand behind them.
#[tactic(auto, unfolding(rules::specs::Messages::drop_val))]
pub fn without_val(inbox: &[Message; 128], e: EpochNo) -> [Message; 128]
    ensures { result ≡ padded 128 zero_message (drop_val e (entries used_message inbox.now)) }
{
    slots::without(inbox, |m| message::of_kind(m, 1, e))
}

// The inbox without the messages of epoch e: the others move up, and zeros stand behind them.
#[tactic(auto, unfolding(rules::specs::Messages::drop_epoch, rules::specs::Messages::of_epoch))]
pub fn without_epoch(inbox: &[Message; 128], e: EpochNo) -> [Message; 128]
    ensures { result ≡ padded 128 zero_message (drop_epoch e (entries used_message inbox.now)) }
{
    slots::keep(inbox, |m| m.epoch != e)
}
