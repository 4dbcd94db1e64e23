// Whether a pair is sound: a test of any struct whatever, all of 01's paragraph.
#![tactic(auto)]

ghost use Rattle.std.specs.Prelude.{◌≡◌, true, ◌&&◌, ◌+◌, ◌≤◌, length, leb};
ghost use Rattle.slots.specs.Slots.{entries};
ghost use Rattle.rules.specs.Guest.{ops_of};
ghost use Rattle.rules.specs.GuestSlots.{used_op, used_interrupt};
ghost use Rattle.rules.specs.Sound.{once as once_of, sound_message, extra as extra_of, sound_limits, sound_turns};
ghost use Rattle.rules.specs.PairSlots.{used_message, seen_card, seen, laid_card, laid as laid_of, tight_card, sound_pair};
ghost use Rattle.pair.specs.Sound.{sound_card, all_tabled, few};

use rules::{Card, Interrupt, Message, OpNo, Pair, Phase};

// "messages with kind 1 to 4, epoch 1 to 65,535, Ints as in PINT and unused fields 0"
#[tactic(auto, unfolding(rules::specs::Sound::sound_message, rules::specs::Messages::interrupt_of))]
fn sound_message(m: Message) -> bool
    ensures { result ≡ sound_message m }
{
    let fields = if m.kind == 2 {
        sound::proper(Interrupt {
            status: m.status,
            op: m.op,
            word: m.word,
        })
    } else {
        (m.status == 0)
            & (m.op == OpNo::default())
            & ((m.kind == 1) | (m.kind == 3) | ((m.kind == 4) & (m.word == 0)))
    };
    (1 <= m.epoch.0) & fields
}

// "each buffered operation in its guest's table"
fn tabled(buffer: &[Interrupt], table: &[OpNo]) -> bool
    ensures { result ≡ all_tabled (entries used_op table.now) (ops_of (entries used_interrupt buffer.now)) }
{
    slots::every(buffer, |i| table::has(table, i.op))
}

// "once"
fn once(buffer: &[Interrupt]) -> bool
    ensures { result ≡ once_of (ops_of (entries used_interrupt buffer.now)) }
{
    let mut rest = slots::used(buffer);
    while let Some((i, later)) = rest.split_first() {
        if buffer::has(later, i.op) {
            return false;
        }
        rest = later;
    }
    true
}

// A card: its guest under N and L, and its buffer.
fn sound_card(c: &Card, n: u16, l: u16) -> bool
    ensures is { result ≡ tight_card c.now && sound_card n l (seen_card c.now) }
    ensures laid { result ≡ true → c.now ≡ laid_card (seen_card c.now) }
{
    sound::sound_guest(&c.guest, n, l)
        & slots::tight(&c.buffer, sound::proper)
        & tabled(&c.buffer, &c.guest.table)
        & once(&c.buffer)
}

// "(1 if waiting or failed)"
#[tactic(auto, unfolding(rules::specs::Sound::extra))]
fn extra(phase: Phase) -> usize
    ensures is { result ≡ extra_of phase }
    ensures most { result ≤ 1 }
{
    match phase {
        Phase::Running => 0,
        Phase::Waiting(_) | Phase::Failed => 1,
    }
}

// "L 1 to 4,096, N 1 to 1,024"
#[tactic(auto, unfolding(rules::specs::Sound::sound_limits))]
fn sound_limits(pair: &Pair) -> bool
    ensures { result ≡ sound_limits pair.now }
{
    (1..=4096).contains(&pair.limit) & (1..=1024).contains(&pair.count)
}

// "e_p 1 to 65,535; e_b 0 only while following and with no instructions done; waiting only when complete; ..; B's buffer empty unless promoted"
#[tactic(auto, unfolding(rules::specs::Sound::sound_turns, rules::specs::PairSlots::seen, rules::specs::PairSlots::seen_card, rules::specs::GuestSlots::seen_guest, rules::specs::Instruction::complete))]
fn sound_turns(pair: &Pair) -> bool
    ensures { result ≡ sound_turns (seen pair.now) }
{
    let idle = pair.b.epoch.0 == 0;
    let following = phases::is_following(pair.role);
    (1 <= pair.p.epoch.0)
        & (!idle | (following & (pair.b.guest.done == 0)))
        & (!phases::is_waiting(pair.phase) | guest::complete(&pair.p.guest, pair.limit))
        & (!pair.detected | phases::is_failed(pair.phase))
        & (following | pair.detected)
        & (phases::is_promoted(pair.role) | (slots::count(&pair.b.buffer) == 0))
}

// "messages on the link plus acknowledgements in flight ≤ 1 + P's TIMEs + P's buffered + (1 if waiting or failed), and 58"
#[tactic(auto, unfolding(rules::specs::PairSlots::seen, rules::specs::PairSlots::seen_card, rules::specs::GuestSlots::seen_guest))]
fn few(pair: &Pair) -> bool
    ensures { result ≡ few (seen pair.now) }
{
    let out = slots::count(&pair.link) + (pair.acks as usize);
    let held = slots::count(&pair.p.buffer);
    let most = 1 + (pair.p.guest.times as usize) + held + extra(pair.phase);
    (out <= most) & (out <= 58)
}

// Whether a pair is sound; a sound pair's free slots are all zero.
pub fn sound(pair: &Pair) -> bool
    ensures is { result ≡ sound_pair pair.now }
    ensures laid { result ≡ true → pair.now ≡ laid_of (seen pair.now) }
{
    sound_limits(pair)
        & sound_card(&pair.p, pair.count, pair.limit)
        & sound_card(&pair.b, pair.count, pair.limit)
        & slots::tight(&pair.link, sound_message)
        & slots::tight(&pair.inbox, sound_message)
        & (slots::count(&pair.inbox) <= 128)
        & few(pair)
        & sound_turns(pair)
}
