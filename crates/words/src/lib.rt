// Numbers of one, two and four bytes in a slice of bytes, the lowest byte first, as 01 stores every number.
//
// Every function takes any place of any slice. A byte past the end reads as 0 and is not written: a reader of a slice that is too
// short still gets a number, and a writer keeps to the slice that it was lent.
#![tactic(auto)]

ghost use Rattle.std.specs.Prelude.{◌≡◌, ◌+◌};
ghost use Rattle.words.specs.Numbers.{le8, le16, le32, at8, at16, at32};
ghost use Rattle.words.specs.Arrays.{tab};
ghost use Rattle.words.specs.Wrote.{Wrote};

use std::array;

// The byte at the place k behind `at`, or 0 where the slice ends before. No slice reaches the place at which the sum saturates.
fn byte(s: &[u8], at: usize, k: usize) -> u8
    ensures { result ≡ at8 s.now (at + k) }
{
    get8(s, at.saturating_add(k))
}

// Stores v at the place k behind `at`, where the slice has it.
fn store(buf: &mut [u8], at: usize, k: usize, v: u8)
    ensures { Wrote buf.old (at + k) (le8 v) buf.new }
{
    put8(buf, at.saturating_add(k), v);
}

// Writes the N bytes from `at` on.
fn put_bytes<const N: usize>(buf: &mut [u8], at: usize, bytes: [u8; N])
    ensures { Wrote buf.old at bytes.entry buf.new }
{
    for (k, v) in bytes.iter().enumerate() {
        store(buf, at, k, *v);
    }
}

// Reads the N bytes from `at` on.
fn get_bytes<const N: usize>(s: &[u8], at: usize) -> [u8; N]
    ensures { result ≡ tab (λ k. at8 s.now (at + k)) N }
{
    array::from_fn(|k| byte(s, at, k))
}

// Writes the byte v at `at`.
pub fn put8(buf: &mut [u8], at: usize, v: u8)
    ensures { Wrote buf.old at (le8 v) buf.new }
{
    if at < buf.len() {
        buf[at] = v;
    }
}

// Writes the two bytes of v from `at` on.
pub fn put16(buf: &mut [u8], at: usize, v: u16)
    ensures { Wrote buf.old at (le16 v) buf.new }
{
    put_bytes::<2>(buf, at, v.to_le_bytes());
}

// Writes the four bytes of v from `at` on.
pub fn put32(buf: &mut [u8], at: usize, v: u32)
    ensures { Wrote buf.old at (le32 v) buf.new }
{
    put_bytes::<4>(buf, at, v.to_le_bytes());
}

// Reads the byte at `at`.
pub fn get8(s: &[u8], at: usize) -> u8
    ensures { result ≡ at8 s.now at }
{
    s.get(at).copied().unwrap_or(0)
}

// Reads the number whose two bytes stand from `at` on.
#[tactic(auto, unfolding(crate::specs::Arrays::tab))]
pub fn get16(s: &[u8], at: usize) -> u16
    ensures { result ≡ at16 s.now at }
{
    u16::from_le_bytes(get_bytes(s, at))
}

// Reads the number whose four bytes stand from `at` on.
#[tactic(auto, unfolding(crate::specs::Arrays::tab))]
pub fn get32(s: &[u8], at: usize) -> u32
    ensures { result ≡ at32 s.now at }
{
    u32::from_le_bytes(get_bytes(s, at))
}
