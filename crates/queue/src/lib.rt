// The interrupt queue: 17 slots, filled from the front, the oldest first. What all lists of slots share is in crate slots.
#![tactic(auto)]

ghost use Rattle.std.specs.Prelude.{◌≡◌, ◌≤◌};
ghost use Rattle.slots.specs.Slots.{entries, count as count_of};
ghost use Rattle.rules.specs.Instruction.{is_timer, is_device};
ghost use Rattle.rules.specs.GuestSlots.{used_interrupt};

use rules::Interrupt;

// How many untaken interrupts are the timer's.
pub fn timers(queue: &[Interrupt; 17]) -> usize
    ensures is { result ≡ count_of is_timer (entries used_interrupt queue.now) }
    ensures most { result ≤ 17 }
{
    slots::count_where(queue, |i| i.status == 3)
}

// How many of them are devices'.
pub fn devices(queue: &[Interrupt; 17]) -> usize
    ensures is { result ≡ count_of is_device (entries used_interrupt queue.now) }
    ensures most { result ≤ 17 }
{
    let all = slots::count(queue);
    let timers = timers(queue);
    all - timers
}
