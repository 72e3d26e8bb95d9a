//! Linux's auxiliary data of a packet: words that a load from 0xfffff000 on names (the header <linux/filter.h>, SKF_AD_OFF).

ghost use Rattle.std.specs.Prelude.{◌≡◌, ◌≤◌};
ghost use Rattle.bpf_classic.specs.Auxiliary.{offset_of, auxiliary_at, or_load, in_kind, instruction_in};

use crate::instruction::{Auxiliary, Classic, LoadSize};
use crate::raw::{Raw, instruction_of};
use crate::refusal::Kind;

impl Auxiliary {
    /// How many bytes the word lies behind the first one: from 0 to 60.
    pub fn offset(self) -> u32
        ensures same { result ≡ offset_of self }
        ensures few { result ≤ 60 }
    {
        match self {
            Auxiliary::Protocol => 0,
            Auxiliary::PacketType => 4,
            Auxiliary::Interface => 8,
            Auxiliary::Mark => 20,
            Auxiliary::Queue => 24,
            Auxiliary::HardwareType => 28,
            Auxiliary::Hash => 32,
            Auxiliary::Processor => 36,
            Auxiliary::VlanTag => 44,
            Auxiliary::HasVlanTag => 48,
            Auxiliary::Random => 56,
            Auxiliary::VlanProtocol => 60,
        }
    }
}

fn auxiliary_at(k: u32) -> Option<Auxiliary>
    ensures { result ≡ auxiliary_at k }
{
    match k {
        0xffff_f000 => Some(Auxiliary::Protocol),
        0xffff_f004 => Some(Auxiliary::PacketType),
        0xffff_f008 => Some(Auxiliary::Interface),
        0xffff_f014 => Some(Auxiliary::Mark),
        0xffff_f018 => Some(Auxiliary::Queue),
        0xffff_f01c => Some(Auxiliary::HardwareType),
        0xffff_f020 => Some(Auxiliary::Hash),
        0xffff_f024 => Some(Auxiliary::Processor),
        0xffff_f02c => Some(Auxiliary::VlanTag),
        0xffff_f030 => Some(Auxiliary::HasVlanTag),
        0xffff_f038 => Some(Auxiliary::Random),
        0xffff_f03c => Some(Auxiliary::VlanProtocol),
        _ => None,
    }
}

fn or_load(size: LoadSize, k: u32, word: Option<Auxiliary>) -> Classic
    ensures { result ≡ or_load size k word }
{
    match word {
        Some(word) => Classic::Extension { word },
        None => Classic::At { size, k },
    }
}

fn in_kind(kind: Kind, i: Classic) -> Classic
    ensures { result ≡ in_kind kind i }
{
    match kind {
        Kind::Packets | Kind::Seccomp => i,
        Kind::Extended => match i {
            Classic::At { size, k } => or_load(size, k, auxiliary_at(k)),
            Classic::Constant { .. } | Classic::Length { .. } | Classic::Cell { .. } => i,
            Classic::Store { .. } | Classic::Index { .. } | Classic::Header { .. } => i,
            Classic::Extension { .. } | Classic::Alu { .. } | Classic::Neg => i,
            Classic::Jump { .. } | Classic::Back { .. } | Classic::JumpIf { .. } => i,
            Classic::Return { .. } | Classic::ReturnA | Classic::Tax | Classic::Txa => i,
        },
    }
}

/// The instruction with this code, if there is one; in filters with Linux's extensions a load from where one lies is that extension.
pub fn instruction_in(kind: Kind, raw: &Raw) -> Option<Classic>
    ensures { result ≡ instruction_in kind raw.now }
{
    Some(in_kind(kind, instruction_of(raw)?))
}
