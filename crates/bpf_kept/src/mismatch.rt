//! Why it isn't shown that a new program keeps the meaning of an old one.

ghost use Rattle.std.specs.Prelude.{◌≡◌, ◌<◌, ◌≤◌, ◌↔◌, [], IsSome, IfSome, MatchOption, get_or, length};
ghost use Rattle.bpf_kept.specs.Mismatches.{fault_number, mismatch_number, mismatch_slot, mismatch_texts};

/// What fails of what is noted of an instruction of the new program.
#[derive(Clone, Copy, Debug, PartialEq, Eq)]
pub enum NoteFault {
    /// An extra instruction is none that may stand in front of the old one.
    Front,
    /// Another instruction stands for the old one.
    Insn,
    /// The same instruction does, and it reads what may be something else.
    Read,
    /// The next instruction doesn't stand behind it, or the notes ask more there than they give here.
    Next,
    /// It leads elsewhere, or the notes ask more there than they give here.
    Target,
}

/// Why not.
#[derive(Clone, Copy, Debug, PartialEq, Eq)]
pub enum Mismatch {
    /// The byte orders differ.
    Order,
    /// What is noted of the new program's first slot asks for more than what holds at the start.
    Start,
    /// What is noted of a slot of the new program, in front of an old one, doesn't hold.
    At {
        slot: u32,
        old: u32,
        fault: NoteFault,
    },
    /// There are more notes than the new program has slots.
    TooMany,
    /// The new program has no certificate for contexts of this length.
    Length,
    /// No exit that stands for one of the old program's is reached.
    NoExit,
}

impl NoteFault {
    /// Its number, from 3 to 7.
    pub fn number(self) -> u8
        ensures { result ≡ fault_number self }
    {
        match self {
            NoteFault::Front => 3,
            NoteFault::Insn => 4,
            NoteFault::Read => 5,
            NoteFault::Next => 6,
            NoteFault::Target => 7,
        }
    }
}

impl Mismatch {
    /// Its number: 1 for the orders, 2 for the start, the fault's, 8 for too many notes, 9 for the certificate, 10 for the exits.
    pub fn number(self) -> u8
        ensures { result ≡ mismatch_number self }
    {
        match self {
            Mismatch::Order => 1,
            Mismatch::Start => 2,
            Mismatch::At { fault, .. } => fault.number(),
            Mismatch::TooMany => 8,
            Mismatch::Length => 9,
            Mismatch::NoExit => 10,
        }
    }

    /// The old slot at which it fails; 0 where it is none of one slot.
    pub fn slot(self) -> u32
        ensures { result ≡ mismatch_slot self }
    {
        match self {
            Mismatch::At { old, .. } => old,
            Mismatch::Order | Mismatch::Start | Mismatch::TooMany => 0,
            Mismatch::Length | Mismatch::NoExit => 0,
        }
    }
}

/// What fails by the number of a mismatch: M1 to M10, in words, without the slot.
pub fn mismatch_text(number: u32) -> Option<&'static str>
    ensures numbered { IsSome result ↔ ((1 ≤ number) × (number ≤ 10)) }
    ensures said { IfSome result (λ text. 0 < length text.now) }
    ensures words { MatchOption result (get_or mismatch_texts number [] ≡ []) (λ text. text.now ≡ get_or mismatch_texts number []) }
{
    match number {
        1 => Some("the byte orders differ"),
        2 => Some("the new program doesn't begin with what stands for the old one's start"),
        3 => Some(
            "what stands in front of the instruction isn't known, or isn't what the notes say",
        ),
        4 => Some("another instruction stands for it"),
        5 => Some("the instruction reads what may be something else in the new program"),
        6 => Some("the next instruction doesn't stand behind it, or the notes ask for more there"),
        7 => Some("the instruction leads elsewhere, or the notes ask for more there"),
        8 => Some("there are more notes than the new program has slots"),
        9 => Some("the new program has no certificate for contexts of this length"),
        10 => Some("the old program comes to no exit on contexts of this length"),
        _ => None,
    }
}
