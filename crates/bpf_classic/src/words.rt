//! The words of `tcpdump -d`.

ghost use Rattle.std.specs.Prelude.{◌≡◌, ◌≤◌, length};
ghost use Rattle.bpf_classic.specs.Listing.{auxiliary_word, insn_word, load_word, op_word, size_word, store_word, test_word};

use crate::instruction::{Auxiliary, Classic, LoadSize, Op, Register, Test};

fn load_word(to: Register) -> &'static str
    ensures { result.now ≡ load_word to }
{
    match to {
        Register::A => "ld",
        Register::X => "ldx",
    }
}

fn store_word(from: Register) -> &'static str
    ensures { result.now ≡ store_word from }
{
    match from {
        Register::A => "st",
        Register::X => "stx",
    }
}

fn size_word(size: LoadSize) -> &'static str
    ensures { result.now ≡ size_word size }
{
    match size {
        LoadSize::Byte => "ldb",
        LoadSize::Half => "ldh",
        LoadSize::Word => "ld",
    }
}

fn op_word(op: Op) -> &'static str
    ensures { result.now ≡ op_word op }
{
    match op {
        Op::Add => "add",
        Op::Sub => "sub",
        Op::Mul => "mul",
        Op::Div => "div",
        Op::Or => "or",
        Op::And => "and",
        Op::Lsh => "lsh",
        Op::Rsh => "rsh",
        Op::Mod => "mod",
        Op::Xor => "xor",
    }
}

fn test_word(test: Test) -> &'static str
    ensures { result.now ≡ test_word test }
{
    match test {
        Test::Eq => "jeq",
        Test::Gt => "jgt",
        Test::Ge => "jge",
        Test::Set => "jset",
    }
}

/// The word of an instruction.
pub(crate) fn insn_word(insn: &Classic) -> &'static str
    ensures { result.now ≡ insn_word insn.now }
{
    match *insn {
        Classic::Constant { to, k: _k } => load_word(to),
        Classic::Length { to } => load_word(to),
        Classic::Cell { to, cell: _cell } => load_word(to),
        Classic::Store { from, cell: _cell } => store_word(from),
        Classic::At { size, k: _k } => size_word(size),
        Classic::Index { size, k: _k } => size_word(size),
        Classic::Header { .. } => "ldxb",
        Classic::Extension { .. } => "ld",
        Classic::Alu {
            op,
            source: _source,
        } => op_word(op),
        Classic::Neg => "neg",
        Classic::Jump { .. } | Classic::Back { .. } => "ja",
        Classic::JumpIf { test, .. } => test_word(test),
        Classic::Return { .. } | Classic::ReturnA => "ret",
        Classic::Tax => "tax",
        Classic::Txa => "txa",
    }
}

/// The name of a word of Linux's auxiliary data.
pub(crate) fn auxiliary_word(word: Auxiliary) -> &'static str
    ensures { result.now ≡ auxiliary_word word }
{
    match word {
        Auxiliary::Protocol => "proto",
        Auxiliary::PacketType => "type",
        Auxiliary::Interface => "ifidx",
        Auxiliary::Mark => "mark",
        Auxiliary::Queue => "queue",
        Auxiliary::HardwareType => "hatype",
        Auxiliary::Hash => "rxhash",
        Auxiliary::Processor => "cpu",
        Auxiliary::VlanTag => "vlan_tci",
        Auxiliary::HasVlanTag => "vlanp",
        Auxiliary::Random => "random",
        Auxiliary::VlanProtocol => "vlan_tpid",
    }
}
