// The types of the house, and of code only what belongs to a type: which of its values is a free slot, and 01's number of a refusal. What
// document 01 says of them stands in specs/.
#![tactic(auto)]

ghost use Rattle.std.specs.Prelude.{◌≡◌, refl};
ghost use Rattle.rules.specs.Events.{number};
ghost use Rattle.rules.specs.GuestSlots.{used_op, used_interrupt, is_zero_op, is_zero_interrupt, zero_op, zero_interrupt};
ghost use Rattle.rules.specs.PairSlots.{used_message, is_zero_message, zero_message};
ghost use Rattle.rules.specs.Zeros.{zero_op_lem, zero_interrupt_lem, zero_message_lem};

use slots::Slot;

// An operation number. It is never given where an epoch number belongs.
#[derive(Clone, Copy, PartialEq, Eq, PartialOrd, Ord, Default)]
pub struct OpNo(pub u16);

// An epoch number. It is never given where an operation number belongs.
#[derive(Clone, Copy, PartialEq, Eq, PartialOrd, Ord, Default)]
pub struct EpochNo(pub u16);

// Status 1 completion, 2 uncertain, 3 timer; a free slot is all zero. The status is a number and no enum: a card's image may hold any byte
// there, and `sound_guest` in specs/GuestSound.antt answers for each.
#[derive(Clone, Copy, PartialEq, Eq, Default)]
pub struct Interrupt {
    pub status: u8,
    pub op: OpNo,
    pub word: u32,
}

// A guest: `done` and `times` are the instructions and TIMEs done this epoch, `last` the last operation number. `armed` stands beside the
// deadline and is no `Option` of it: `sound_guest` answers for a deadline that stands beside a timer that is not armed. The lists are arrays
// of fixed length and no `Vec`: an event has no answer for a heap that runs out.
#[derive(Clone, Copy)]
pub struct Guest {
    pub pc: u16,
    pub done: u16,
    pub times: u8,
    pub armed: bool,
    pub deadline: u32,
    pub regs: [u32; 8],
    pub mem: [u32; 64],
    pub last: OpNo,
    pub table: [OpNo; 16],
    pub queue: [Interrupt; 17],
}

// An instruction: registers, a device, a number or a jump target.
#[derive(Clone, Copy, PartialEq, Eq)]
pub enum Instr {
    Nop,
    SetTo(u8, u16),
    Add(u8, u8, u8),
    Sub(u8, u8, u8),
    Div(u8, u8, u8),
    Load(u8, u8),
    Store(u8, u8),
    Jz(u8, u16),
    Take(u8, u8, u8),
    Time(u8),
    Start(u8, u8, u8),
    Timer(u8),
}

// An entry of the devices' record: operation, device, word.
#[derive(Clone, Copy, PartialEq, Eq, Default)]
pub struct RecordEntry {
    pub op: OpNo,
    pub device: u8,
    pub word: u32,
}

// What one instruction leaves, and what the devices are shown.
#[derive(Clone, Copy)]
pub struct Ran {
    pub guest: Guest,
    pub shown: Option<RecordEntry>,
}

// Kind 1 Val, 2 Int, 3 Tme, 4 end; a free slot is all zero. Kind and status are numbers, as an interrupt's status is: `sound_message` in
// specs/Sound.antt answers for each.
#[derive(Clone, Copy, PartialEq, Eq, Default)]
pub struct Message {
    pub kind: u8,
    pub status: u8,
    pub epoch: EpochNo,
    pub op: OpNo,
    pub word: u32,
}

// The first card: while it waits it keeps the clock that it sent.
#[derive(Clone, Copy, PartialEq, Eq)]
pub enum Phase {
    Running,
    Waiting(u32),
    Failed,
}

// The second card.
#[derive(Clone, Copy, PartialEq, Eq)]
pub enum Role {
    Following,
    Failover,
    Promoted,
}

// A card: its guest, the epoch that it is in, and the interrupts that wait for the epoch's end.
#[derive(Clone, Copy)]
pub struct Card {
    pub guest: Guest,
    pub epoch: EpochNo,
    pub buffer: [Interrupt; 16],
}

// Two cards P and B, L and N, the link between them with its acknowledgements in flight, and B's inbox.
#[derive(Clone, Copy)]
pub struct Pair {
    pub p: Card,
    pub phase: Phase,
    pub b: Card,
    pub role: Role,
    pub detected: bool,
    pub limit: u16,
    pub count: u16,
    pub link: [Message; 58],
    pub acks: u16,
    pub inbox: [Message; 128],
}

// An event, by 01's names.
#[derive(Clone, Copy, PartialEq, Eq)]
pub enum Event {
    PStep(u32),
    PInt(Interrupt),
    PTime(u32),
    PEnd,
    Link,
    Ack,
    Fail,
    Detect,
    BStep(u32),
    BEnd(u32),
    BInt(Interrupt),
}

// Why something is refused; `number` in specs/ gives 01's number of each.
#[derive(Clone, Copy, PartialEq, Eq)]
pub enum Refusal {
    Malformed,
    Dead,
    OutOfTurn,
    MustWait,
    UnknownOperation,
    InboxFull,
    EpochsUsedUp,
    BadProgram,
    TooShort,
    BadFile,
    Unsound,
}

// What comes back: taken, or the refusal.
pub type Answer = Result<(), Refusal>;

// The outcome of an event: the answer, the next pair (the pair as it came where refused) and what the devices are shown. It is no `Result` of
// the two: `Soundness.refused` and `Accepted.nothing` speak of the pair that comes back with a refusal.
#[derive(Clone, Copy)]
pub struct Outcome {
    pub answer: Answer,
    pub pair: Pair,
    pub shown: Option<RecordEntry>,
}

impl Slot for OpNo {
    ghost used = { used_op };

    ghost is_zero = { is_zero_op };

    ghost zero = { zero_op };

    fn is_used(&self) -> bool {
        self.0 != 0
    }

    fn is_zero(&self) -> bool {
        *self == OpNo::default()
    }

    fn free() -> OpNo {
        OpNo::default()
    }

    ghost is_free = { refl };

    ghost zero_is = { zero_op_lem };
}

impl Slot for Interrupt {
    ghost used = { used_interrupt };

    ghost is_zero = { is_zero_interrupt };

    ghost zero = { zero_interrupt };

    fn is_used(&self) -> bool {
        self.status != 0
    }

    fn is_zero(&self) -> bool {
        *self == Interrupt::default()
    }

    fn free() -> Interrupt {
        Interrupt::default()
    }

    ghost is_free = { refl };

    ghost zero_is = { zero_interrupt_lem };
}

impl Slot for Message {
    ghost used = { used_message };

    ghost is_zero = { is_zero_message };

    ghost zero = { zero_message };

    fn is_used(&self) -> bool {
        self.kind != 0
    }

    fn is_zero(&self) -> bool {
        *self == Message::default()
    }

    fn free() -> Message {
        Message::default()
    }

    ghost is_free = { refl };

    ghost zero_is = { zero_message_lem };
}

// "Numbers that come back"
impl From<Refusal> for u8 {
    ghost from_gives = { λ why n. n ≡ number why };

    #[tactic(auto, unfolding(crate::specs::Events::number))]
    fn from(why: Refusal) -> u8 {
        match why {
            Refusal::Malformed => 1,
            Refusal::Dead => 2,
            Refusal::OutOfTurn => 3,
            Refusal::MustWait => 4,
            Refusal::UnknownOperation => 5,
            Refusal::InboxFull => 6,
            Refusal::EpochsUsedUp => 7,
            Refusal::BadProgram => 8,
            Refusal::TooShort => 9,
            Refusal::BadFile => 10,
            Refusal::Unsound => 11,
        }
    }
}
