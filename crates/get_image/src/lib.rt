// Reads the pair of an image: 01, "Stored forms". Which byte is which field is said in crate layout; each function here reads one part of
// it at a place. A place lies inside an image, so no sum of places can wrap, and past the end of a slice that is too short zeros are read.
#![tactic(auto)]

ghost use Rattle.std.specs.Prelude.{◌≡◌, ◌+◌, ◌≤◌};
ghost use Rattle.layout.specs.Fields.{guest as guest_form, phase_of};
ghost use Rattle.layout.specs.Image.{image_length, image_at};

use layout::{Stored, get_array};
use rules::{Card, EpochNo, Guest, OpNo, Pair, Phase, Role};

// "P phase (1 running, 2 waiting, 3 failed)", with the clock sent. Any other number reads as 1 does, and is refused before the pair is used.
#[tactic(auto, unfolding(layout::specs::Fields::phase_of))]
fn phase_of(n: u8, clock: u32) -> Phase
    ensures { result ≡ phase_of n clock }
{
    match n {
        2 => Phase::Waiting(clock),
        3 => Phase::Failed,
        _ => Phase::Running,
    }
}

// A guest, 468 bytes: "pc 2, instructions 2, TIMEs 1, armed 1, last number 2, deadline 4, registers 32, memory 256, table 16×2, queue 17×8".
fn get_guest(s: &[u8], at: usize) -> Guest
    requires { at + 468 ≤ image_length }
    ensures { result ≡ guest_form.at s.now at }
{
    Guest {
        pc: words::get16(s, at),
        done: words::get16(s, at + 2),
        times: words::get8(s, at + 4),
        armed: bool::get(s, at + 5),
        last: OpNo::get(s, at + 6),
        deadline: words::get32(s, at + 8),
        regs: get_array(s, at + 12),
        mem: get_array(s, at + 44),
        table: get_array(s, at + 300),
        queue: get_array(s, at + 332),
    }
}

// The pair of an image: header, guests, buffers, link and inbox.
#[tactic(auto, unfolding(layout::specs::Image::image_at))]
pub fn get(s: &[u8]) -> Pair
    ensures { result ≡ image_at s.now }
{
    Pair {
        p: Card {
            guest: get_guest(s, 20),
            epoch: EpochNo::get(s, 8),
            buffer: get_array(s, 956),
        },
        phase: phase_of(words::get8(s, 1), words::get32(s, 16)),
        b: Card {
            guest: get_guest(s, 488),
            epoch: EpochNo::get(s, 10),
            buffer: get_array(s, 1084),
        },
        role: Role::get(s, 2),
        detected: bool::get(s, 3),
        limit: words::get16(s, 4),
        count: words::get16(s, 6),
        link: get_array(s, 1212),
        acks: words::get16(s, 12),
        inbox: get_array(s, 1908),
    }
}
