// The fields that the lines are made of.
ghost use Rattle.text.specs.Texts.{Puts};
ghost use Rattle.requests.specs.Lines.{front, saved_field, shown_field};

use layout::IMAGE_LENGTH;
use rules::{Answer, Pair, RecordEntry};
use text::Text;

// `KIND ANSWER`, with which a line begins.
pub fn put_front(text: &mut Text, kind: u8, answer: Answer)
    ensures { Puts text.old (front kind answer) text.new }
{
    text.put_number(u64::from(kind));
    text.put_number_field(u64::from(answers::number(answer)));
}

// A space, and then HEX of the pair, saved.
pub fn put_saved(text: &mut Text, pair: Pair)
    ensures { Puts text.old (saved_field pair) text.new }
{
    let mut image = [0u8; IMAGE_LENGTH];
    let _ = image::save(pair, &mut image);
    text.put_hex_field(&image);
}

// A space, and then what an event shows: operation, device and word, 0 0 0 where there is none.
pub fn put_shown(text: &mut Text, shown: Option<RecordEntry>)
    ensures { Puts text.old (shown_field shown) text.new }
{
    text.put_byte(b' ');
    match shown {
        Some(e) => text.put_entry(e.op.0, e.device, e.word),
        None => text.put_entry(0, 0, 0),
    }
}
