// Which byte of an image is which field of a pair: definitions in specs/, their laws in proofs/. Of code there is what writing, reading and
// testing an image share: two constants, the things that stand in it at many places, and arrays of them.
#![tactic(auto)]

ghost use Rattle.std.specs.Prelude.{◌≡◌, ℕ, ◌+◌, ◌*◌, ◌≤◌, length, refl};
ghost use Rattle.words.specs.Wrote.{Wrote};
ghost use Rattle.words.specs.Arrays.{each};
ghost use Rattle.forms.specs.Stored.{Stored as Form, word, array, flag};
ghost use Rattle.layout.specs.Fields.{operation, epoch, interrupt, message, role};
ghost use Rattle.layout.specs.Image.{image_length};

use rules::{EpochNo, Interrupt, Message, OpNo, Role};
use std::array;

// "form 1"
pub const FORM: u8 = 1;

// "Image, 3,444 bytes"
pub const IMAGE_LENGTH: usize = 3444;

// A thing that stands in an image at many places: it can be written at a place, read there, and its bytes there tested. A place lies inside
// an image, so no sum of places can wrap.
pub trait Stored: Copy {
    // how it stands in bytes
    ghost form: { Form Self };

    // how many bytes it has
    ghost SIZE: { ℕ };

    const SIZE: usize;

    fn put(self, buf: &mut [u8], at: usize)
        requires { at + SIZE ≤ image_length }
        ensures { Wrote buf.old at (form.bytes self) buf.new };

    fn get(s: &[u8], at: usize) -> Self
        requires { at + SIZE ≤ image_length }
        ensures { result ≡ form.at s.now at };

    fn fine(s: &[u8], at: usize) -> bool
        requires { at + SIZE ≤ image_length }
        ensures { result ≡ form.fine s.now at };

    // that is what the form says, and each of them has so many
    ghost sized: { form.size ≡ SIZE };

    ghost wide: { (x : Self) → length (form.bytes x) ≡ SIZE };
}

// "registers 32, memory 256": a number, 4 bytes
impl Stored for u32 {
    ghost form = { word };

    ghost SIZE = { 4 };

    const SIZE: usize = 4;

    ghost sized = { refl };

    ghost wide = { λ x. refl };

    fn put(self, buf: &mut [u8], at: usize) {
        words::put32(buf, at, self);
    }

    fn get(s: &[u8], at: usize) -> u32 {
        words::get32(s, at)
    }

    fn fine(_s: &[u8], _at: usize) -> bool {
        true
    }
}

// "table 16×2": an operation number
impl Stored for OpNo {
    ghost form = { operation };

    ghost SIZE = { 2 };

    const SIZE: usize = 2;

    ghost sized = { refl };

    ghost wide = { λ x. refl };

    fn put(self, buf: &mut [u8], at: usize) {
        words::put16(buf, at, self.0);
    }

    fn get(s: &[u8], at: usize) -> OpNo {
        OpNo(words::get16(s, at))
    }

    fn fine(_s: &[u8], _at: usize) -> bool {
        true
    }
}

// "e_p, e_b, .. 2 bytes each": an epoch number
impl Stored for EpochNo {
    ghost form = { epoch };

    ghost SIZE = { 2 };

    const SIZE: usize = 2;

    ghost sized = { refl };

    ghost wide = { λ x. refl };

    fn put(self, buf: &mut [u8], at: usize) {
        words::put16(buf, at, self.0);
    }

    fn get(s: &[u8], at: usize) -> EpochNo {
        EpochNo(words::get16(s, at))
    }

    fn fine(_s: &[u8], _at: usize) -> bool {
        true
    }
}

// "flags in range": 0 or 1. Any other number reads as 0 does, and is refused before the pair is used.
impl Stored for bool {
    ghost form = { flag };

    ghost SIZE = { 1 };

    const SIZE: usize = 1;

    ghost sized = { refl };

    ghost wide = { λ x. refl };

    fn put(self, buf: &mut [u8], at: usize) {
        words::put8(buf, at, u8::from(self));
    }

    fn get(s: &[u8], at: usize) -> bool {
        words::get8(s, at) == 1
    }

    fn fine(s: &[u8], at: usize) -> bool {
        words::get8(s, at) < 2
    }
}

// "B phase (1 following, 2 failover, 3 promoted)". Any other number reads as 1 does, and is refused before the pair is used.
impl Stored for Role {
    ghost form = { role };

    ghost SIZE = { 1 };

    const SIZE: usize = 1;

    ghost sized = { refl };

    ghost wide = { λ x. refl };

    #[tactic(auto, unfolding(crate::specs::Fields::role_number))]
    fn put(self, buf: &mut [u8], at: usize) {
        match self {
            Role::Following => words::put8(buf, at, 1),
            Role::Failover => words::put8(buf, at, 2),
            Role::Promoted => words::put8(buf, at, 3),
        }
    }

    #[tactic(auto, unfolding(crate::specs::Fields::role_of))]
    fn get(s: &[u8], at: usize) -> Role {
        match words::get8(s, at) {
            2 => Role::Failover,
            3 => Role::Promoted,
            _ => Role::Following,
        }
    }

    fn fine(s: &[u8], at: usize) -> bool {
        (1..=3).contains(&words::get8(s, at))
    }
}

// "status, 0, operation 2, data 4"
impl Stored for Interrupt {
    ghost form = { interrupt };

    ghost SIZE = { 8 };

    const SIZE: usize = 8;

    ghost sized = { refl };

    ghost wide = { λ x. refl };

    fn put(self, buf: &mut [u8], at: usize) {
        words::put8(buf, at, self.status);
        words::put8(buf, at + 1, 0);
        words::put16(buf, at + 2, self.op.0);
        words::put32(buf, at + 4, self.word);
    }

    fn get(s: &[u8], at: usize) -> Interrupt {
        Interrupt {
            status: words::get8(s, at),
            op: OpNo(words::get16(s, at + 2)),
            word: words::get32(s, at + 4),
        }
    }

    // "zero fields 0"
    fn fine(s: &[u8], at: usize) -> bool {
        words::get8(s, at + 1) == 0
    }
}

// "kind .., status, epoch 2, operation 2, zero 2, word 4"
impl Stored for Message {
    ghost form = { message };

    ghost SIZE = { 12 };

    const SIZE: usize = 12;

    ghost sized = { refl };

    ghost wide = { λ x. refl };

    fn put(self, buf: &mut [u8], at: usize) {
        words::put8(buf, at, self.kind);
        words::put8(buf, at + 1, self.status);
        words::put16(buf, at + 2, self.epoch.0);
        words::put16(buf, at + 4, self.op.0);
        words::put16(buf, at + 6, 0);
        words::put32(buf, at + 8, self.word);
    }

    fn get(s: &[u8], at: usize) -> Message {
        Message {
            kind: words::get8(s, at),
            status: words::get8(s, at + 1),
            epoch: EpochNo(words::get16(s, at + 2)),
            op: OpNo(words::get16(s, at + 4)),
            word: words::get32(s, at + 8),
        }
    }

    // "zero fields 0"
    fn fine(s: &[u8], at: usize) -> bool {
        words::get16(s, at + 6) == 0
    }
}

// Writes them one behind the other.
pub fn put_array<T: Stored>(xs: &[T], buf: &mut [u8], at: usize)
    requires { at + length xs.now * T.SIZE ≤ image_length }
    ensures { Wrote buf.old at (each T.form.bytes xs.now) buf.new }
{
    for (i, x) in xs.iter().enumerate() {
        x.put(buf, at + i * T::SIZE);
    }
}

// Reads N that stand one behind the other.
pub fn get_array<T: Stored, const N: usize>(s: &[u8], at: usize) -> [T; N]
    requires { at + N * T.SIZE ≤ image_length }
    ensures { result ≡ (array N T.form).at s.now at }
{
    array::from_fn(
        |i| -> T
            requires { at + i * T.SIZE + T.SIZE ≤ image_length }
        { T::get(s, at + i * T::SIZE) },
    )
}

// Tests the bytes of n that stand one behind the other.
pub fn fine_array<T: Stored>(s: &[u8], at: usize, n: usize) -> bool
    requires { at + n * T.SIZE ≤ image_length }
    ensures { result ≡ (array n T.form).fine s.now at }
{
    (0..n).all(
        |i| -> bool
            requires { at + i * T.SIZE + T.SIZE ≤ image_length }
        { T::fine(s, at + i * T::SIZE) },
    )
}
