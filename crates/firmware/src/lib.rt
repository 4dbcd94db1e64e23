// The monitor for programs in C: numbers and lent bytes alone. A pair lives in its owner's store as its image. The crate firmware_c has the
// functions under their names for C.
#![tactic(auto)]

ghost use Rattle.std.specs.Prelude.{◌≡◌};
ghost use Rattle.words.specs.Wrote.{Wrote};
ghost use Rattle.layout.specs.Image.{image_at};
ghost use Rattle.rules.specs.Bytes.{apply_read, read_event};
ghost use Rattle.rules.specs.PairSlots.{answer_number, outcome};
ghost use Rattle.image.specs.Stores.{loaded};
ghost use Rattle.firmware.specs.Firmware.{ill_formed, entry_bytes, entry_of, in_room, applied, Stepped, SavedFrom, RetiredStore};

use layout::IMAGE_LENGTH;
use rules::{Outcome, Pair, RecordEntry, Refusal};

// "at most one record entry (operation 2 bytes, device 1, zero 1, word 4)"
const ENTRY_LENGTH: usize = 8;

// The record entry of an event, zeros where there is none.
#[tactic(auto, unfolding(crate::specs::Firmware::entry_of))]
fn entry_of(shown: Option<RecordEntry>) -> RecordEntry
    ensures { result ≡ entry_of shown }
{
    shown.unwrap_or_default()
}

fn put_entry(e: RecordEntry, entry: &mut [u8])
    ensures { Wrote entry.old 0 (entry_bytes e) entry.new }
{
    words::put16(entry, 0, e.op.0);
    words::put8(entry, 2, e.device);
    words::put8(entry, 3, 0);
    words::put32(entry, 4, e.word);
}

// "malformed event, or not 8 bytes"
#[tactic(auto, unfolding(crate::specs::Firmware::ill_formed))]
fn ill_formed(event: &[u8]) -> bool
    ensures { result ≡ ill_formed (read_event event.now) }
{
    match event::read_event(event) {
        Some(ev) => event::malformed(ev),
        None => true,
    }
}

// An event on a pair; then 9 where it shows an entry and there is no room for that.
fn step_in(program: &[u8], pair: Pair, event: &[u8], room: usize) -> Outcome
    ensures { result ≡ outcome pair (in_room room (apply_read program.now pair (read_event event.now))) }
{
    let outcome = monitor::step(program, pair, event);
    if outcome.shown.is_some() & (room < ENTRY_LENGTH) {
        return outcomes::refused(pair, Refusal::TooShort);
    }
    outcome
}

// An event on the pair in a store: 1, 10, 11, and then what the event answers. Whether the pair of a fine image is sound is asked once, by
// the step itself.
fn apply(program: &[u8], store: &[u8], event: &[u8], room: usize) -> Outcome
    ensures { result ≡ outcome (image_at store.now) (applied program.now store.now event.now room) }
{
    let pair = get_image::get(store);
    if ill_formed(event) {
        return outcomes::refused(pair, Refusal::Malformed);
    }
    if store.len() != IMAGE_LENGTH {
        return outcomes::refused(pair, Refusal::BadFile);
    }
    if !fine_image::fine(store) {
        return outcomes::refused(pair, Refusal::Unsound);
    }
    step_in(program, pair, event, room)
}

// One event on the pair in the store: 1; 10 for a store that is not an image long; 11; 8; the event's column; 8; and 9 where it shows an entry
// that has no room. Refused, neither store nor entry is touched; taken, the store has the next pair, and the entry its 8 bytes or, where
// nothing is shown, zeros for as many of them as it has.
pub fn pair_step(program: &[u8], store: &mut [u8], event: &[u8], entry: &mut [u8]) -> u8
    ensures { Stepped program.now store.old event.now entry.old result store.new entry.new }
{
    let outcome = apply(program, store, event, entry.len());
    match outcome.answer {
        Ok(()) => {
            let _ = image::fit(outcome.pair, store);
            put_entry(entry_of(outcome.shown), entry);
            0
        }
        Err(why) => u8::from(why),
    }
}

// Saves the pair in the store into a buffer: 10 or 11 for a store that is no image of a sound pair, then 9.
pub fn pair_save(store: &[u8], buf: &mut [u8]) -> u8
    ensures { SavedFrom store.now buf.old result buf.new }
{
    let loaded = image::load(store);
    match loaded.answer {
        Ok(()) => answers::number(image::fit(loaded.pair, buf)),
        Err(why) => u8::from(why),
    }
}

// Whether these bytes are a pair that the monitor takes: 0, else 10 or 11.
pub fn pair_load(image: &[u8]) -> u8
    ensures { result ≡ answer_number (loaded image.now).answer }
{
    answers::number(image::load(image).answer)
}

// Retires the store: 8, then 9; on both every byte of it is 0. Else it has a fresh pair, and zeros to its end.
pub fn pair_retire(program: &[u8], l: u16, store: &mut [u8]) -> u8
    ensures { RetiredStore program.now l store.old result store.new }
{
    answers::number(image::retire(program, l, store))
}
