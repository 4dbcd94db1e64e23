// Writes the image of a pair: 01, "Stored forms". Which byte is which field is said in crate layout; each function here writes one part
// of it at a place, and keeps to the slice that it was lent. A place lies inside an image, so no sum of places can wrap.
#![tactic(auto)]

ghost use Rattle.std.specs.Prelude.{◌≡◌, ◌+◌, ◌≤◌};
ghost use Rattle.words.specs.Wrote.{Wrote};
ghost use Rattle.layout.specs.Fields.{front as front_form, front_of, guest as guest_form, phase_number};
ghost use Rattle.layout.specs.Image.{image_length, header as header_form, header_of, image_bytes};

use layout::{FORM, Stored, put_array};
use rules::{Guest, Pair, Phase};

// "P phase (1 running, 2 waiting, 3 failed)"
#[tactic(auto, unfolding(layout::specs::Fields::phase_number))]
fn phase_number(phase: Phase) -> u8
    ensures { result ≡ phase_number phase }
{
    match phase {
        Phase::Running => 1,
        Phase::Waiting(_) => 2,
        Phase::Failed => 3,
    }
}

// "pc 2, instructions 2, TIMEs 1, armed 1, last number 2, deadline 4"
fn put_front(g: &Guest, buf: &mut [u8], at: usize)
    requires { at + 12 ≤ image_length }
    ensures { Wrote buf.old at (front_form.bytes (front_of g.now)) buf.new }
{
    words::put16(buf, at, g.pc);
    words::put16(buf, at + 2, g.done);
    words::put8(buf, at + 4, g.times);
    g.armed.put(buf, at + 5);
    g.last.put(buf, at + 6);
    words::put32(buf, at + 8, g.deadline);
}

// A guest, 468 bytes: what stands at its front, and then "registers 32, memory 256, table 16×2, queue 17×8".
fn put_guest(g: Guest, buf: &mut [u8], at: usize)
    requires { at + 468 ≤ image_length }
    ensures { Wrote buf.old at (guest_form.bytes g) buf.new }
{
    put_front(&g, buf, at);
    put_array(&g.regs, buf, at + 12);
    put_array(&g.mem, buf, at + 44);
    put_array(&g.table, buf, at + 300);
    put_array(&g.queue, buf, at + 332);
}

// "Header 20: form 1; P phase ..; B phase ..; detected; then L, N, e_p, e_b, acknowledgements in flight, zero, 2 bytes each; then the clock sent, 4"
fn put_header(s: &Pair, buf: &mut [u8])
    ensures { Wrote buf.old 0 (header_form.bytes (header_of s.now)) buf.new }
{
    words::put8(buf, 0, FORM);
    words::put8(buf, 1, phase_number(s.phase));
    s.role.put(buf, 2);
    s.detected.put(buf, 3);
    words::put16(buf, 4, s.limit);
    words::put16(buf, 6, s.count);
    s.p.epoch.put(buf, 8);
    s.b.epoch.put(buf, 10);
    words::put16(buf, 12, s.acks);
    words::put16(buf, 14, 0);
    words::put32(buf, 16, phases::clock_sent(s.phase));
}

// Writes the image of a pair at the front of the buffer: header, guests, buffers, link and inbox. What stands behind it stays.
pub fn put(s: Pair, buf: &mut [u8])
    ensures { Wrote buf.old 0 (image_bytes s) buf.new }
{
    put_header(&s, buf);
    put_guest(s.p.guest, buf, 20);
    put_guest(s.b.guest, buf, 488);
    put_array(&s.p.buffer, buf, 956);
    put_array(&s.b.buffer, buf, 1084);
    put_array(&s.link, buf, 1212);
    put_array(&s.inbox, buf, 1908);
}
