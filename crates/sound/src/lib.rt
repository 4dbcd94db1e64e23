// Whether a guest is sound under N and L: a test of any struct whatever.
#![tactic(auto)]

ghost use Rattle.std.specs.Prelude.{◌≡◌, true, ◌&&◌};
ghost use Rattle.slots.specs.Slots.{entries, tight, every};
ghost use Rattle.rules.specs.GuestSound.{proper as proper_of, sound_entry as sound_entry_of, ascending};
ghost use Rattle.rules.specs.GuestSlots.{used_op, used_interrupt, is_zero_op, is_zero_interrupt, seen_guest, laid_guest, sound_in_memory};

use rules::{Guest, Interrupt, OpNo};

// "status 1 or 2, operation 1 to 65,535, .. data 0 for status 2"
#[tactic(auto, unfolding(rules::specs::GuestSound::proper, rules::specs::GuestSound::says))]
pub fn proper(i: Interrupt) -> bool
    ensures { result ≡ proper_of i }
{
    ((i.status == 1) | ((i.status == 2) & (i.word == 0))) & (1 <= i.op.0)
}

// A timer entry has operation 0; a device's is proper.
#[tactic(auto, unfolding(rules::specs::GuestSound::sound_entry))]
fn sound_entry(i: Interrupt) -> bool
    ensures { result ≡ sound_entry_of i }
{
    if i.status == 3 {
        i.op == OpNo::default()
    } else {
        proper(i)
    }
}

// Ascending numbers, none above the last one given.
fn rising(table: &[OpNo], last: OpNo) -> bool
    ensures { result ≡ ascending 0 last.0 (entries used_op table.now) }
{
    let mut below = OpNo(0);
    for x in slots::used(table) {
        let rises = (below < *x) & (*x <= last);
        if !rises {
            return false;
        }
        below = *x;
    }
    true
}

// Used slots from the front, each a sound entry, and zeros behind.
fn sound_queue(queue: &[Interrupt]) -> bool
    ensures { result ≡ tight used_interrupt is_zero_interrupt queue.now && every sound_entry_of (entries used_interrupt queue.now) }
{
    slots::tight(queue, sound_entry)
}

// Every condition of 01 on a guest; a sound guest's free slots are zero.
pub fn sound_guest(g: &Guest, n: u16, l: u16) -> bool
    ensures is { result ≡ sound_in_memory n l g.now }
    ensures laid { result ≡ true → g.now ≡ laid_guest (seen_guest g.now) }
{
    slots::tight(&g.table, |_| true)
        & sound_queue(&g.queue)
        & (g.armed | (g.deadline == 0))
        & (g.pc < n)
        & (g.done <= l)
        & (g.times <= 40)
        & ((g.times as u16) <= g.done)
        & rising(&g.table, g.last)
        & (queue::timers(&g.queue) <= 1)
        & (slots::count(&g.table) + queue::devices(&g.queue) <= 16)
}
