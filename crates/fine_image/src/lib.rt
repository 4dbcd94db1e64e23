// Tests the bytes of an image that say nothing of a pair: 01, "form, phases and flags in range; zero fields 0; .. clock sent 0 unless waiting".
// Which byte is which field is said in crate layout. A place lies inside an image, so no sum of places can wrap.
#![tactic(auto)]

ghost use Rattle.std.specs.Prelude.{◌≡◌, ◌+◌, ◌≤◌};
ghost use Rattle.layout.specs.Fields.{guest, phase_may};
ghost use Rattle.layout.specs.Image.{image_length, header, image_fine};

use layout::{FORM, Stored, fine_array};
use rules::{Interrupt, Message, Role};

// "flags in range; zero fields 0", of a guest.
fn fine_guest(s: &[u8], at: usize) -> bool
    requires { at + 468 ≤ image_length }
    ensures { result ≡ guest.fine s.now at }
{
    bool::fine(s, at + 5) & fine_array::<Interrupt>(s, at + 332, 17)
}

// "form, phases and flags in range; zero fields 0", of the header but for P's phase.
fn fine_header(s: &[u8]) -> bool
    ensures { result ≡ header.fine s.now 0 }
{
    (words::get8(s, 0) == FORM) & Role::fine(s, 2) & bool::fine(s, 3) & (words::get16(s, 14) == 0)
}

// P's phase is in range, and "clock sent 0 unless waiting".
#[tactic(auto, unfolding(layout::specs::Fields::phase_may))]
fn fine_phase(n: u8, clock: u32) -> bool
    ensures { result ≡ phase_may n clock }
{
    (1..=3).contains(&n) & ((n == 2) | (clock == 0))
}

// Whether an image has nothing but a pair in it. Whether that pair is sound is another question.
#[tactic(auto, unfolding(layout::specs::Image::image_fine))]
pub fn fine(s: &[u8]) -> bool
    ensures { result ≡ image_fine s.now }
{
    fine_header(s)
        & fine_guest(s, 20)
        & fine_guest(s, 488)
        & fine_array::<Interrupt>(s, 956, 16)
        & fine_array::<Interrupt>(s, 1084, 16)
        & fine_array::<Message>(s, 1212, 58)
        & fine_array::<Message>(s, 1908, 128)
        & fine_phase(words::get8(s, 1), words::get32(s, 16))
}
