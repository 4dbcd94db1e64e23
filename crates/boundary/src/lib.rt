// The boundary of an epoch, in its parts.
#![tactic(auto)]

ghost use Rattle.std.specs.Prelude.{◌≡◌};
ghost use Rattle.slots.specs.Slots.{entries};
ghost use Rattle.rules.specs.Boundary.{uncertain as uncertain_of, timer_interrupt, restart as restart_of};
ghost use Rattle.rules.specs.GuestSlots.{used_interrupt};
ghost use Rattle.boundary.specs.InSlots.{deliver_in, delivers_in, tell_uncertain_in, timer_in, close_in, boundary_in};

use rules::{Guest, Interrupt, OpNo};

// One interrupt leaves the table and joins the queue; one whose number isn't in the table is dropped.
#[tactic(auto, unfolding(crate::specs::InSlots::deliver_in))]
pub fn deliver(g: Guest, i: Interrupt) -> Guest
    ensures { result ≡ deliver_in g i }
{
    if !table::has(&g.table, i.op) {
        return g;
    }
    let mut h = g;
    h.table = table::strike(&g.table, i.op);
    slots::push(&mut h.queue, i);
    h
}

// The interrupts of a buffer, in order of arrival.
fn deliver_all(g: Guest, buffer: &[Interrupt]) -> Guest
    ensures { result ≡ delivers_in g (entries used_interrupt buffer.now) }
{
    slots::fold(buffer, g, |h, i| deliver(h, i))
}

fn uncertain(op: OpNo) -> Interrupt
    ensures { result ≡ uncertain_of op }
{
    Interrupt {
        status: 2,
        op,
        word: 0,
    }
}

// P8: an uncertain interrupt for each operation still in the table, ascending.
#[tactic(auto, unfolding(crate::specs::InSlots::tell_uncertain_in))]
pub fn tell_uncertain(g: Guest) -> Guest
    ensures { result ≡ tell_uncertain_in g }
{
    slots::fold(&g.table, g, |h, op| deliver(h, uncertain(op)))
}

fn timer_interrupt(clock: u32) -> Interrupt
    ensures { result ≡ timer_interrupt clock }
{
    Interrupt {
        status: 3,
        word: clock,
        ..Interrupt::default()
    }
}

// The timer's three acts, if it is armed and due; they wait while a timer interrupt is untaken.
#[tactic(auto, unfolding(crate::specs::InSlots::timer_in, rules::specs::Boundary::due, rules::specs::GuestSlots::seen_guest))]
fn ring(g: Guest, clock: u32) -> Guest
    ensures { result ≡ timer_in clock g }
{
    let untaken = queue::timers(&g.queue);
    if g.armed & (g.deadline <= clock) & (untaken == 0) {
        let mut h = g;
        h.armed = false;
        h.deadline = 0;
        slots::push(&mut h.queue, timer_interrupt(clock));
        return h;
    }
    g
}

// Both epoch counts become 0.
#[tactic(auto, unfolding(rules::specs::Boundary::restart))]
fn restart(g: Guest) -> Guest
    ensures { result ≡ restart_of g }
{
    Guest {
        done: 0,
        times: 0,
        ..g
    }
}

// The boundary's end: the timer, and the counts.
#[tactic(auto, unfolding(crate::specs::InSlots::close_in))]
pub fn close(g: Guest, clock: u32) -> Guest
    ensures { result ≡ close_in clock g }
{
    restart(ring(g, clock))
}

// The boundary with the interrupts of a buffer.
#[tactic(auto, unfolding(crate::specs::InSlots::boundary_in))]
pub fn boundary(g: &Guest, buffer: &[Interrupt], clock: u32) -> Guest
    ensures { result ≡ boundary_in (entries used_interrupt buffer.now) clock g.now }
{
    close(deliver_all(*g, buffer), clock)
}
