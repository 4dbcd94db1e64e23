// A card's buffer: the interrupts that wait for the epoch's end, 16 slots, filled from the front. What all lists of slots share is in crate slots.
#![tactic(auto)]

ghost use Rattle.std.specs.Prelude.{◌≡◌, []};
ghost use Rattle.slots.specs.Slots.{entries, padded};
ghost use Rattle.rules.specs.Guest.{listed, ops_of};
ghost use Rattle.rules.specs.GuestSlots.{used_interrupt, zero_interrupt};

use rules::{Interrupt, OpNo};

// Whether an interrupt of the operation waits.
pub fn has(buffer: &[Interrupt], o: OpNo) -> bool
    ensures { result ≡ listed o (ops_of (entries used_interrupt buffer.now)) }
{
    slots::any(buffer, |i| i.op == o)
}

// A buffer with nothing in it: 16 zero slots.
#[tactic(auto, unfolding(slots::specs::Slots::padded))]
pub fn empty() -> [Interrupt; 16]
    ensures { result ≡ padded 16 zero_interrupt [] }
{
    [Interrupt::default(); 16]
}
