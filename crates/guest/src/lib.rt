// One instruction, with the clock as an argument.
#![tactic(auto)]

ghost use Rattle.std.specs.Prelude.{◌≡◌, ◌%◌, ◌<◌, true, false, ◌==◌, slice_index, slice_set};
ghost use Rattle.slots.specs.Slots.{pick};
ghost use Rattle.rules.specs.Guest.{with_reg, with_mem, with_timer, with_counts, reg as reg_of};
ghost use Rattle.rules.specs.Instruction.{sum as sum_of, difference as difference_of, quotient as quotient_of, cannot_start, quiet as quiet_of, next as next_of, complete as complete_of};
ghost use Rattle.rules.specs.GuestSlots.{seen_guest};
ghost use Rattle.guest.specs.InSlots.{with_place, in_place, take_in, start_in, perform_in, instruction_in};

use rules::{Guest, Instr, OpNo, Ran, RecordEntry};

// "An epoch is complete after L instructions .. or its 40th TIME"
#[tactic(auto, unfolding(rules::specs::Instruction::complete))]
pub fn complete(g: &Guest, l: u16) -> bool
    ensures { result ≡ complete_of l g.now }
{
    (l <= g.done) | (40 <= g.times)
}

// "pc moves on by 1, from N-1 to 0"
fn next(g: &Guest, n: u16) -> u16
    ensures { result ≡ next_of n g.now }
{
    if g.pc < n {
        if g.pc + 1 < n {
            return g.pc + 1;
        }
    }
    0
}

// r[x]; there is nothing past r7.
fn reg(g: &Guest, x: u8) -> u32
    ensures { result ≡ reg_of g.now x }
{
    g.regs.get(x as usize).copied().unwrap_or(0)
}

// v in r[x].
fn with_reg(g: Guest, x: u8, v: u32) -> Guest
    ensures { result ≡ with_reg g x v }
{
    let i = x as usize;
    let mut h = g;
    if i < 8 {
        h.regs[i] = v;
    }
    h
}

fn sum(a: u32, b: u32) -> u32
    ensures { result ≡ sum_of a b }
{
    a.wrapping_add(b)
}

fn difference(a: u32, b: u32) -> u32
    ensures { result ≡ difference_of a b }
{
    a.wrapping_sub(b)
}

// "rounded down; 4,294,967,295 for divisor 0"
fn quotient(a: u32, b: u32) -> u32
    ensures { result ≡ quotient_of a b }
{
    if b == 0 { u32::MAX } else { a / b }
}

// memory[a mod 64]
fn load(g: &Guest, a: u32) -> u32
    ensures { result ≡ slice_index g.now.mem (a % 64) }
{
    g.mem[(a % 64) as usize]
}

fn store(g: Guest, a: u32, v: u32) -> Guest
    ensures { result ≡ with_mem g (slice_set g.mem (a % 64) v) }
{
    let mut h = g;
    h.mem[(a % 64) as usize] = v;
    h
}

// "oldest interrupt leaves the queue: r[x] status, then r[y] operation, then r[z] data"
#[tactic(auto, unfolding(crate::specs::InSlots::take_in, rules::specs::Instruction::take))]
fn take(g: Guest, x: u8, y: u8, z: u8) -> Guest
    ensures { result ≡ take_in g x y z }
{
    let i = slots::oldest(&g.queue);
    let queue = slots::without_oldest(&g.queue);
    let with_status = with_reg(Guest { queue, ..g }, x, i.status as u32);
    let with_op = with_reg(with_status, y, i.op.0 as u32);
    with_reg(with_op, z, i.word)
}

// Whether START gives 0: table entries plus untaken device interrupts are 16, or the last number is 65,535.
#[tactic(auto, unfolding(rules::specs::Instruction::cannot_start, rules::specs::GuestSlots::seen_guest))]
fn cannot_start(g: &Guest) -> bool
    ensures is { result ≡ cannot_start (seen_guest g.now) }
    ensures room { result ≡ false → g.now.last.0 < 65535 }
{
    let OpNo(last) = g.last;
    (slots::count(&g.table) + queue::devices(&g.queue) == 16) | (last == 65535)
}

// START. The word is r[x] of the guest as it came: it is read before r[z] is written.
#[tactic(auto, unfolding(crate::specs::InSlots::start_in, rules::specs::Instruction::starts))]
fn start(g: Guest, x: u8, y: u8, z: u8) -> Ran
    ensures { result ≡ start_in g x y z }
{
    if cannot_start(&g) {
        return quiet(with_reg(g, z, 0));
    }
    let op = OpNo(g.last.0 + 1);
    let word = reg(&g, x);
    let mut h = g;
    h.last = op;
    slots::push(&mut h.table, op);
    Ran {
        guest: with_reg(h, z, op.0 as u32),
        shown: Some(RecordEntry {
            op,
            device: y,
            word,
        }),
    }
}

fn quiet(g: Guest) -> Ran
    ensures { result ≡ quiet_of g }
{
    Ran {
        guest: g,
        shown: None,
    }
}

// The pc and the count of instructions after one that shows nothing.
fn placed(g: Guest, pc: u16, done: u16) -> Ran
    ensures { result ≡ quiet_of (with_place g pc done) }
{
    quiet(Guest { pc, done, ..g })
}

// The same after START, which may show something.
fn moved(r: Ran, pc: u16, done: u16) -> Ran
    ensures { result ≡ in_place r pc done }
{
    Ran {
        guest: Guest {
            pc,
            done,
            ..r.guest
        },
        shown: r.shown,
    }
}

// v in r[x], and on.
fn put(g: Guest, x: u8, v: u32, pc: u16, done: u16) -> Ran
    ensures { result ≡ quiet_of (with_place (with_reg g x v) pc done) }
{
    placed(with_reg(g, x, v), pc, done)
}

// "if r[x] = 0, pc = 256y + z"
fn jump(g: &Guest, x: u8, target: u16, pc: u16) -> u16
    ensures { result ≡ pick (reg_of g.now x == 0) target pc }
{
    if reg(g, x) == 0 { target } else { pc }
}

// "r[x] = clock reading", and one more TIME.
fn timed(g: Guest, x: u8, clock: u32, times: u8) -> Guest
    ensures { result ≡ with_counts (with_reg g x clock) g.done times }
{
    Guest {
        times,
        ..with_reg(g, x, clock)
    }
}

// "deadline = r[x], armed"
fn arm(g: Guest, x: u8) -> Guest
    ensures { result ≡ with_timer g true (reg_of g x) }
{
    Guest {
        armed: true,
        deadline: reg(&g, x),
        ..g
    }
}

// The table of instructions; pc is the one that follows. The counts of an epoch that is not complete do not overflow.
#[tactic(auto, unfolding(crate::specs::InSlots::perform_in, rules::specs::Instruction::perform, crate::specs::InSlots::take_in, rules::specs::Instruction::take))]
fn perform(i: Instr, g: Guest, pc: u16, clock: u32) -> Ran
    requires { (g.done < 65535) × (g.times < 255) }
    ensures { result ≡ perform_in i g pc clock }
{
    let done = g.done + 1;
    match i {
        Instr::Nop => placed(g, pc, done),
        Instr::SetTo(x, k) => put(g, x, k as u32, pc, done),
        Instr::Add(x, y, z) => put(g, x, sum(reg(&g, y), reg(&g, z)), pc, done),
        Instr::Sub(x, y, z) => put(g, x, difference(reg(&g, y), reg(&g, z)), pc, done),
        Instr::Div(x, y, z) => put(g, x, quotient(reg(&g, y), reg(&g, z)), pc, done),
        Instr::Load(x, y) => put(g, x, load(&g, reg(&g, y)), pc, done),
        Instr::Store(x, y) => placed(store(g, reg(&g, y), reg(&g, x)), pc, done),
        Instr::Jz(x, t) => placed(g, jump(&g, x, t, pc), done),
        Instr::Take(x, y, z) => placed(take(g, x, y, z), pc, done),
        Instr::Time(x) => placed(timed(g, x, clock, g.times + 1), pc, done),
        Instr::Start(x, y, z) => moved(start(g, x, y, z), pc, done),
        Instr::Timer(x) => placed(arm(g, x), pc, done),
    }
}

// One instruction under N and L, with the clock reading that TIME would get. In a complete epoch nothing runs.
#[tactic(auto, unfolding(crate::specs::InSlots::instruction_in))]
pub fn instruction(i: Instr, g: &Guest, n: u16, l: u16, clock: u32) -> Ran
    ensures { result ≡ instruction_in i g.now n l clock }
{
    if complete(g, l) {
        return quiet(*g);
    }
    perform(i, *g, next(g, n), clock)
}
