// Lists that are filled from the front and zero behind: arrays of slots, whatever stands in them. What an array means is said in specs/.
#![tactic(auto)]

ghost use Rattle.std.specs.Prelude.{◌≡◌, ◌≤◌, ◌&&◌, Bool, true, false, length, drop, get_or, find};
ghost use Rattle.std.specs.List.{take_while, list_all};
ghost use Rattle.slots.specs.Slots.{entries, padded, pushed, keep, without, any, every, count, folded, tight, Computes, Steps};

// What can stand in a slot: a test of use, and the free slot, which is zero.
pub trait Slot: Copy {
    ghost used: { Self → Bool };

    ghost is_zero: { Self → Bool };

    ghost zero: { Self };

    fn is_used(&self) -> bool
        ensures { result ≡ used self.now };

    // Nothing is left in it.
    fn is_zero(&self) -> bool
        ensures { result ≡ is_zero self.now };

    fn free() -> Self
        ensures { result ≡ zero };

    ghost is_free: { used zero ≡ false };

    ghost zero_is: { (x : Self) → is_zero x ≡ true → x ≡ zero };
}

// How many slots stand in front of the first free one.
fn front<T: Slot>(slots: &[T]) -> usize
    ensures { result ≡ length (take_while T.used slots.now) }
{
    slots.iter().take_while(|x| x.is_used()).count()
}

// How many slots are used.
pub fn count<T: Slot>(slots: &[T]) -> usize
    ensures is { result ≡ length (entries T.used slots.now) }
    ensures most { result ≤ length slots.now }
{
    front(slots)
}

// The used slots, a part of the array.
#[tactic(auto, using(crate::proofs::Entries::entries_front))]
pub fn used<T: Slot>(slots: &[T]) -> &[T]
    ensures { result.now ≡ entries T.used slots.now }
{
    &slots[..count(slots)]
}

// One more, in the first free slot; where none is free, nothing is stored.
pub fn push<T: Slot>(slots: &mut [T], x: T)
    ensures { slots.new ≡ pushed T.used slots.old x }
{
    let n = count(slots);
    if n < slots.len() {
        slots[n] = x;
    }
}

// The oldest, or a free slot where there is none.
pub fn oldest<T: Slot>(slots: &[T]) -> T
    ensures { result ≡ get_or (entries T.used slots.now) 0 T.zero }
{
    used(slots).first().copied().unwrap_or(T::free())
}

// These, and then free slots: what has no room is left out.
pub fn laid<T: Slot, const N: usize>(items: &[T]) -> [T; N]
    ensures { result ≡ padded N T.zero items.now }
{
    let mut slots = [T::free(); N];
    let n = items.len().min(N);
    slots[..n].copy_from_slice(&items[..n]);
    slots
}

// The slots without the oldest: the others move up, and free slots stand behind them.
pub fn without_oldest<T: Slot, const N: usize>(slots: &[T; N]) -> [T; N]
    ensures { result ≡ padded N T.zero (drop 1 (entries T.used slots.now)) }
{
    match used(slots).split_first() {
        Some((_, rest)) => laid(rest),
        None => laid(&[]),
    }
}

// Whether a test holds of one of the used slots.
pub fn any<T: Slot, F: Fn(T) -> bool>(slots: &[T], test: F) -> bool
    requires { F.IsAlwaysCallable test }
    ensures { (p : T → Bool) → Computes (F.post test) p → result ≡ any p (entries T.used slots.now) }
{
    for x in used(slots) {
        if test(*x) {
            return true;
        }
    }
    false
}

// Whether it holds of each.
pub fn every<T: Slot, F: Fn(T) -> bool>(slots: &[T], test: F) -> bool
    requires { F.IsAlwaysCallable test }
    ensures { (p : T → Bool) → Computes (F.post test) p → result ≡ every p (entries T.used slots.now) }
{
    for x in used(slots) {
        if !test(*x) {
            return false;
        }
    }
    true
}

// How many of the used slots it holds of.
pub fn count_where<T: Slot, F: Fn(T) -> bool>(slots: &[T], test: F) -> usize
    requires { F.IsAlwaysCallable test }
    ensures is { (p : T → Bool) → Computes (F.post test) p → result ≡ count p (entries T.used slots.now) }
    ensures most { result ≤ length slots.now }
{
    let mut passed = 0;
    for x in used(slots) {
        if test(*x) {
            passed += 1;
        }
    }
    passed
}

// The first that it holds of.
pub fn find<T: Slot, F: Fn(T) -> bool>(slots: &[T], test: F) -> Option<T>
    requires { F.IsAlwaysCallable test }
    ensures { (p : T → Bool) → Computes (F.post test) p → result ≡ find p (entries T.used slots.now) }
{
    for x in used(slots) {
        if test(*x) {
            return Some(*x);
        }
    }
    None
}

// Whether nothing is left in any of these.
fn zeros<T: Slot>(slots: &[T]) -> bool
    ensures { result ≡ list_all T.is_zero slots.now }
{
    slots.iter().all(|x| x.is_zero())
}

// "slots filled from the front, the rest zero", and a test holds of each that is used.
pub fn tight<T: Slot, F: Fn(T) -> bool>(slots: &[T], test: F) -> bool
    requires { F.IsAlwaysCallable test }
    ensures is { (p : T → Bool) → Computes (F.post test) p → result ≡ tight T.used T.is_zero slots.now && every p (entries T.used slots.now) }
    ensures laid { result ≡ true → slots.now ≡ padded (length slots.now) T.zero (entries T.used slots.now) }
{
    let (_, free) = slots.split_at(count(slots));
    zeros(free) & every(slots, test)
}

// What a step makes of a start, with one used slot after the other.
pub fn fold<T: Slot, B: Copy, F: Fn(B, T) -> B>(slots: &[T], start: B, step: F) -> B
    requires { F.IsAlwaysCallable step }
    ensures { (f : B → T → B) → Steps (F.post step) f → result ≡ folded f start (entries T.used slots.now) }
{
    let mut all = start;
    for x in used(slots) {
        all = step(all, *x);
    }
    all
}

// Those slots that a test holds of: they move up, and free slots stand behind them.
pub fn keep<T: Slot, const N: usize, F: Fn(T) -> bool>(slots: &[T; N], test: F) -> [T; N]
    requires { F.IsAlwaysCallable test }
    ensures { (p : T → Bool) → Computes (F.post test) p → result ≡ padded N T.zero (keep p (entries T.used slots.now)) }
{
    let mut kept = [T::free(); N];
    let mut n = 0;
    for x in used(slots) {
        if test(*x) {
            kept[n] = *x;
            n += 1;
        }
    }
    kept
}

// All but the first that a test holds of.
pub fn without<T: Slot, const N: usize, F: Fn(T) -> bool>(slots: &[T; N], test: F) -> [T; N]
    requires { F.IsAlwaysCallable test }
    ensures { (p : T → Bool) → Computes (F.post test) p → result ≡ padded N T.zero (without p (entries T.used slots.now)) }
{
    let mut left = [T::free(); N];
    let mut n = 0;
    let mut found = false;
    for x in used(slots) {
        let here = !found & test(*x);
        if here {
            found = true;
        } else {
            left[n] = *x;
            n += 1;
        }
    }
    left
}
