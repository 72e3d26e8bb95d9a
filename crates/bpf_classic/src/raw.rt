//! Instructions as the eight bytes of `struct sock_filter` tell them, and which instruction each is.

ghost use Rattle.std.specs.Prelude.{◌≡◌};
ghost use Rattle.bpf_classic.specs.Codes.{op_of, test_of, size_of, source_of, load_of, load_x_of, alu_of, jump_of, return_of, misc_of, ja_of, instruction_of};

use crate::instruction::{Classic, LoadSize, Op, Register, Source, Test};

/// An instruction as it is written: its code, how far it jumps where its test holds and where it doesn't, and a constant.
#[derive(Clone, Copy, Debug, PartialEq, Eq)]
pub struct Raw {
    pub code: u16,
    pub jt: u8,
    pub jf: u8,
    pub k: u32,
}

fn op_of(code: u16) -> Option<Op>
    ensures { result ≡ op_of code }
{
    match code / 16 {
        0 => Some(Op::Add),
        1 => Some(Op::Sub),
        2 => Some(Op::Mul),
        3 => Some(Op::Div),
        4 => Some(Op::Or),
        5 => Some(Op::And),
        6 => Some(Op::Lsh),
        7 => Some(Op::Rsh),
        9 => Some(Op::Mod),
        10 => Some(Op::Xor),
        _ => None,
    }
}

fn test_of(code: u16) -> Option<Test>
    ensures { result ≡ test_of code }
{
    match code / 16 {
        1 => Some(Test::Eq),
        2 => Some(Test::Gt),
        3 => Some(Test::Ge),
        4 => Some(Test::Set),
        _ => None,
    }
}

fn size_of(code: u16) -> Option<LoadSize>
    ensures { result ≡ size_of code }
{
    match code / 8 % 4 {
        0 => Some(LoadSize::Word),
        1 => Some(LoadSize::Half),
        2 => Some(LoadSize::Byte),
        _ => None,
    }
}

fn source_of(raw: &Raw) -> Source
    ensures { result ≡ source_of raw.now }
{
    if raw.code / 8 % 2 == 0 {
        Source::K(raw.k)
    } else {
        Source::X
    }
}

fn load_of(raw: &Raw) -> Option<Classic>
    ensures { result ≡ load_of raw.now }
{
    let to = Register::A;
    let k = raw.k;
    match raw.code {
        0x00 => Some(Classic::Constant { to, k }),
        0x60 => Some(Classic::Cell { to, cell: k }),
        0x80 => Some(Classic::Length { to }),
        code => match code / 32 {
            1 => Some(Classic::At {
                size: size_of(code)?,
                k,
            }),
            2 => Some(Classic::Index {
                size: size_of(code)?,
                k,
            }),
            _ => None,
        },
    }
}

fn load_x_of(raw: &Raw) -> Option<Classic>
    ensures { result ≡ load_x_of raw.now }
{
    let to = Register::X;
    let k = raw.k;
    match raw.code {
        0x01 => Some(Classic::Constant { to, k }),
        0x61 => Some(Classic::Cell { to, cell: k }),
        0x81 => Some(Classic::Length { to }),
        0xb1 => Some(Classic::Header { k }),
        _ => None,
    }
}

fn alu_of(raw: &Raw) -> Option<Classic>
    ensures { result ≡ alu_of raw.now }
{
    if raw.code == 0x84 {
        return Some(Classic::Neg);
    }
    Some(Classic::Alu {
        op: op_of(raw.code)?,
        source: source_of(raw),
    })
}

/// An offset of 2^31 or more is one below 0, as two's complement.
fn ja_of(k: u32) -> Classic
    ensures { result ≡ ja_of k }
{
    if k < 0x8000_0000 {
        return Classic::Jump { k };
    }
    Classic::Back {
        k: u32::MAX - k + 1,
    }
}

fn jump_of(raw: &Raw) -> Option<Classic>
    ensures { result ≡ jump_of raw.now }
{
    if raw.code == 0x05 {
        return Some(ja_of(raw.k));
    }
    Some(Classic::JumpIf {
        test: test_of(raw.code)?,
        source: source_of(raw),
        jt: raw.jt,
        jf: raw.jf,
    })
}

fn return_of(raw: &Raw) -> Option<Classic>
    ensures { result ≡ return_of raw.now }
{
    match raw.code {
        0x06 => Some(Classic::Return { k: raw.k }),
        0x16 => Some(Classic::ReturnA),
        _ => None,
    }
}

fn misc_of(raw: &Raw) -> Option<Classic>
    ensures { result ≡ misc_of raw.now }
{
    match raw.code {
        0x07 => Some(Classic::Tax),
        0x87 => Some(Classic::Txa),
        _ => None,
    }
}

/// The instruction with this code, if there is one.
pub fn instruction_of(raw: &Raw) -> Option<Classic>
    ensures { result ≡ instruction_of raw.now }
{
    if raw.code > 0xff {
        return None;
    }
    match raw.code % 8 {
        0 => load_of(raw),
        1 => load_x_of(raw),
        2 => {
            if raw.code == 0x02 {
                Some(Classic::Store {
                    from: Register::A,
                    cell: raw.k,
                })
            } else {
                None
            }
        }
        3 => {
            if raw.code == 0x03 {
                Some(Classic::Store {
                    from: Register::X,
                    cell: raw.k,
                })
            } else {
                None
            }
        }
        4 => alu_of(raw),
        5 => jump_of(raw),
        6 => return_of(raw),
        _ => misc_of(raw),
    }
}
