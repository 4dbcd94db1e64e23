// Decoding an event: any bytes to an event, or ill formed.
#![tactic(auto)]

ghost use Rattle.std.specs.Prelude.{◌≡◌};
ghost use Rattle.rules.specs.Bytes.{heard as heard_of, event_of, read_event};
ghost use Rattle.rules.specs.Events.{malformed as malformed_of};

use rules::{Event, Interrupt, OpNo};

// The event where the test holds.
#[tactic(auto, unfolding(rules::specs::Bytes::heard))]
fn heard(ok: bool, ev: Event) -> Option<Event>
    ensures { result ≡ heard_of ok ev }
{
    ok.then_some(ev)
}

// "Kinds 1, 3, 9, 10 use the word. Kinds 2 and 11 use status .., operation .., data in the word .. All else is 0"
#[tactic(auto, unfolding(rules::specs::Bytes::event_of))]
fn event_of(kind: u8, status: u8, op: OpNo, word: u32) -> Option<Event>
    ensures { result ≡ event_of kind status op word }
{
    let worded = (status == 0) & (op == OpNo::default());
    let bare = worded & (word == 0);
    let i = Interrupt { status, op, word };
    match kind {
        1 => heard(worded, Event::PStep(word)),
        2 => Some(Event::PInt(i)),
        3 => heard(worded, Event::PTime(word)),
        4 => heard(bare, Event::PEnd),
        5 => heard(bare, Event::Link),
        6 => heard(bare, Event::Ack),
        7 => heard(bare, Event::Fail),
        8 => heard(bare, Event::Detect),
        9 => heard(worded, Event::BStep(word)),
        10 => heard(worded, Event::BEnd(word)),
        11 => Some(Event::BInt(i)),
        _ => None,
    }
}

// "8 bytes: kind, status, operation (2), word (4)"
#[tactic(auto, using(crate::proofs::Numbers::too_short, crate::proofs::Numbers::too_long, crate::proofs::Numbers::of_eight))]
pub fn read_event(bytes: &[u8]) -> Option<Event>
    ensures { result ≡ read_event bytes.now }
{
    let &[kind, status, o0, o1, w0, w1, w2, w3] = bytes else {
        return None;
    };
    let op = OpNo(u16::from_le_bytes([o0, o1]));
    let word = u32::from_le_bytes([w0, w1, w2, w3]);
    event_of(kind, status, op, word)
}

// "Kinds 2 and 11 use status 1 or 2, operation 1 to 65,535, data in the word, data 0 for status 2"
#[tactic(auto, unfolding(rules::specs::Events::malformed))]
pub fn malformed(ev: Event) -> bool
    ensures { result ≡ malformed_of ev }
{
    match ev {
        Event::PInt(i) | Event::BInt(i) => !sound::proper(i),
        _ => false,
    }
}
