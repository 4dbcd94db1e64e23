// The table of outstanding operations: 16 slots, filled from the front. What all lists of slots share is in crate slots.
#![tactic(auto)]

ghost use Rattle.std.specs.Prelude.{◌≡◌};
ghost use Rattle.slots.specs.Slots.{entries, padded, keep};
ghost use Rattle.rules.specs.Guest.{listed};
ghost use Rattle.rules.specs.Boundary.{other_op};
ghost use Rattle.rules.specs.GuestSlots.{used_op, zero_op};

use rules::OpNo;

// Whether an operation is in the table.
#[tactic(auto, unfolding(rules::specs::Guest::listed))]
pub fn has(table: &[OpNo], o: OpNo) -> bool
    ensures { result ≡ listed o (entries used_op table.now) }
{
    slots::any(table, |x| x == o)
}

// The table without an operation: the others move up, and zeros stand behind them.
pub fn strike(table: &[OpNo; 16], o: OpNo) -> [OpNo; 16]
    ensures { result ≡ padded 16 zero_op (keep (other_op o) (entries used_op table.now)) }
{
    slots::keep(table, |x| x != o)
}
