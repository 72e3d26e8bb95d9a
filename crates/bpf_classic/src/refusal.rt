//! Why instructions are no filter, and why no program is made of one.

ghost use Rattle.std.specs.Prelude.{◌≡◌, ◌<◌, ◌≤◌, ◌↔◌, [], IsSome, IfSome, MatchOption, get_or, length};
ghost use Rattle.bpf_classic.specs.Refused.{filter_texts};
ghost use Rattle.bpf_classic.specs.Valid.{fault_number, refusal_number};

use thiserror::Error;

/// What a filter is for: packets, the calls of a process (seccomp), or packets with Linux's extensions.
#[derive(Clone, Copy, Debug, PartialEq, Eq)]
pub enum Kind {
    Packets,
    Seccomp,
    Extended,
}

/// What is wrong with one instruction of a filter.
#[derive(Clone, Copy, Debug, PartialEq, Eq, Error)]
pub enum Fault {
    /// B2: no instruction has its code.
    #[error("{}", self.text())]
    Code,
    /// B3: it names a cell of the scratch memory beyond the sixteenth.
    #[error("{}", self.text())]
    Cell,
    /// B4: it divides by the constant 0, or shifts by a constant of 32 or more.
    #[error("{}", self.text())]
    Constant,
    /// B5: it leads past the last instruction, or back past the first.
    #[error("{}", self.text())]
    Target,
    /// B6: it isn't in seccomp's filters, which load aligned words of their 64 bytes alone.
    #[error("{}", self.text())]
    Seccomp,
    /// B7: it loads one of Linux's extensions.
    #[error("{}", self.text())]
    Extension,
    /// B7: it loads what no word behind the length holds: one of Linux's other extensions, or from a header's offset.
    #[error("{}, and no word: nlattr, nlattr_nest, alu_xor_x, pay_offset, or from 0xffe00000 (ll_off, net_off) on", self.text())]
    NoWord,
}

impl Fault {
    /// The number of the refusal, from 2 to 7.
    pub fn number(&self) -> u8
        ensures { result ≡ fault_number self.now }
    {
        match self {
            Fault::Code => 2,
            Fault::Cell => 3,
            Fault::Constant => 4,
            Fault::Target => 5,
            Fault::Seccomp => 6,
            Fault::Extension | Fault::NoWord => 7,
        }
    }

    /// What the refusal with its number tells.
    pub fn text(&self) -> &'static str
        ensures { result.now ≡ get_or filter_texts (fault_number self.now) [] }
    {
        match FilterRefusal::text_numbered(u32::from(self.number())) {
            Some(text) => text,
            None => "",
        }
    }
}

/// Why instructions are no filter, or no program is made of one.
#[derive(Clone, Copy, Debug, PartialEq, Eq, Error)]
pub enum FilterRefusal {
    /// B1: there are none, or more than 4,096.
    #[error("{}", self.text())]
    Length,
    /// B2 to B7: the lowest instruction with a fault.
    #[error("at instruction {at}: {fault}")]
    Instruction { at: u32, fault: Fault },
    /// B9: memory ran out.
    #[error("{}", self.text())]
    Memory,
    /// B10: what was found to hold in front of its instructions doesn't agree, or the templates are no program. No filter is known of which this is said.
    #[error("{}", self.text())]
    Unshown,
}

impl FilterRefusal {
    /// The number of the refusal, from 1 to 10, and never 8.
    pub fn number(&self) -> u8
        ensures { result ≡ refusal_number self.now }
    {
        match self {
            FilterRefusal::Length => 1,
            FilterRefusal::Instruction { fault, .. } => fault.number(),
            FilterRefusal::Memory => 9,
            FilterRefusal::Unshown => 10,
        }
    }

    /// What is told of the refusal with a number, without the place; None where that isn't from 1 to 10. B8 is of what spells no instructions.
    pub fn text_numbered(number: u32) -> Option<&'static str>
        ensures numbered { IsSome result ↔ ((1 ≤ number) × (number ≤ 10)) }
        ensures told { IfSome result (λ text. 0 < length text.now) }
        ensures text { MatchOption result (get_or filter_texts number [] ≡ []) (λ text. text.now ≡ get_or filter_texts number []) }
    {
        match number {
            1 => Some("a filter has from 1 to 4,096 instructions"),
            2 => Some("no instruction of classic BPF has this code"),
            3 => Some("the scratch memory has the cells M[0] to M[15] alone"),
            4 => Some("it divides by the constant 0, or shifts by a constant of 32 or more"),
            5 => Some("it leads past the last instruction, or back past the first"),
            6 => Some(
                "a seccomp filter loads aligned words of its 64 bytes alone, by constant offsets, and has no mod and no jump back",
            ),
            7 => Some("it loads one of Linux's extensions, which a packet doesn't hold"),
            8 => Some("the bytes end inside of an instruction: each has 8"),
            9 => Some("out of memory"),
            10 => Some("the program that was made isn't shown to keep the filter's answers"),
            _ => None,
        }
    }

    /// What is told of the refusal, without the place.
    pub fn text(&self) -> &'static str
        ensures { result.now ≡ get_or filter_texts (refusal_number self.now) [] }
    {
        match FilterRefusal::text_numbered(u32::from(self.number())) {
            Some(text) => text,
            None => "",
        }
    }
}
