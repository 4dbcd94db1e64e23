// The stored image of a pair: saving, loading, and retiring a card's store. 01, "Stored forms" and "Numbers that come back".
#![tactic(auto)]

ghost use Rattle.std.specs.Prelude.{◌≡◌, length};
ghost use Rattle.image.specs.Stores.{Fitted, Saved, loaded, zeros, Retired};
ghost use Rattle.rules.specs.Events.{refused};
ghost use Rattle.rules.specs.PairSlots.{outcome, zero_pair};

use layout::IMAGE_LENGTH;
use rules::{Answer, Outcome, Pair, Refusal};

// Writes the image of a pair at the front of the buffer where it has room for it; else 9, and nothing is written. Whether the pair is
// sound is not asked: it is for those who know that it is.
pub fn fit(pair: Pair, buf: &mut [u8]) -> Answer
    ensures { Fitted pair buf.old result buf.new }
{
    if buf.len() < IMAGE_LENGTH {
        return Err(Refusal::TooShort);
    }
    put_image::put(pair, buf);
    Ok(())
}

// Saves a pair: 11 where it is unsound, then 9 where the buffer is too short. A refused save writes nothing, and a longer buffer keeps
// its rest.
pub fn save(pair: Pair, buf: &mut [u8]) -> Answer
    ensures { Saved pair buf.old result buf.new }
{
    if !pair::sound(&pair) {
        return Err(Refusal::Unsound);
    }
    fit(pair, buf)
}

// Nothing is made: the refusal, and zeros in the pair's place.
fn no_pair(why: Refusal) -> Outcome
    ensures { result ≡ outcome zero_pair (refused why) }
{
    outcomes::refused(outcomes::nothing(), why)
}

// The pair of an image: 10 where it has not the length of one, then 11 where it is not sound.
pub fn load(image: &[u8]) -> Outcome
    ensures { result ≡ loaded image.now }
{
    if image.len() != IMAGE_LENGTH {
        return no_pair(Refusal::BadFile);
    }
    let pair = get_image::get(image);
    if !(fine_image::fine(image) & pair::sound(&pair)) {
        return no_pair(Refusal::Unsound);
    }
    outcomes::taken(pair, None)
}

// Every byte of the store becomes 0.
#[tactic(auto, unfolding(crate::specs::Stores::zeros))]
fn wipe(store: &mut [u8])
    ensures { store.new ≡ zeros (length store.old) }
{
    store.fill(0);
}

// Retires a card: its whole store is wiped before anything else is looked at. Then 8 where the program or L is bad, 9 where the store is
// too short, and otherwise a fresh pair's image at the front.
pub fn retire(program: &[u8], l: u16, store: &mut [u8]) -> Answer
    ensures { Retired program.now l store.old result store.new }
{
    wipe(store);
    let made = outcomes::set_up(program, l);
    made.answer?;
    fit(made.pair, store)
}
