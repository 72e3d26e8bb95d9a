//! An instruction as `tcpdump -d` writes it.

ghost use Rattle.std.specs.Prelude.{◌≡◌, ◌++◌, ◌<◌, ◌^◌, codes, OnOk};
ghost use Rattle.std.specs.String.{string_bytes};
ghost use Rattle.bpf_classic.specs.Listing.{front_text, hex_behind, image_text, number_text, operand_text, raw_text, insn_word, zeros};

use crate::auxiliary::instruction_in;
use crate::instruction::Classic;
use crate::operand::{put_hex, put_operand, put_padded};
use crate::raw::{Raw, instruction_of};
use crate::refusal::Kind;
use crate::words::insn_word;
use std::alloc::AllocError;

/// The zeros in front of the number of an instruction.
fn zeros(at: usize) -> &'static str
    ensures { result.now ≡ zeros at }
{
    if at < 10 {
        "00"
    } else if at < 100 {
        "0"
    } else {
        ""
    }
}

fn put_number(out: &mut String, at: usize) -> Result<(), AllocError>
    ensures { OnOk result (string_bytes out.new ≡ string_bytes out.old ++ number_text at) }
{
    let zeros = zeros(at);
    write!(out, "({zeros}{at}) ")
}

/// Puts the number of an instruction and its word.
fn put_front(out: &mut String, at: usize, word: &str) -> Result<(), AllocError>
    ensures { OnOk result (string_bytes out.new ≡ string_bytes out.old ++ front_text at word.now) }
{
    put_number(out, at)?;
    put_padded(out, 8, word)?;
    out.push_str(" ")
}

/// Puts an instruction, whose operand is that of the second one.
fn put_insn(out: &mut String, at: usize, insn: &Classic, named: &Classic) -> Result<(), AllocError>
    requires { at < 2 ^ 60 }
    ensures { OnOk result (string_bytes out.new ≡ string_bytes out.old ++ image_text at (insn_word insn.now) (operand_text at named.now)) }
{
    put_front(out, at, insn_word(insn))?;
    put_operand(out, at, named)
}

/// Puts what no instruction has the code of.
fn put_unknown(out: &mut String, at: usize, code: u16) -> Result<(), AllocError>
    ensures { OnOk result (string_bytes out.new ≡ string_bytes out.old ++ image_text at (codes "unimp") (hex_behind (codes "0x") code)) }
{
    put_front(out, at, "unimp")?;
    put_hex(out, "0x", u32::from(code))
}

/// Puts the instruction of a filter that stands at a place, as `tcpdump -d` writes it, without a line end: its number, its word, its operand, and
/// where a test leads. The operand of a load of Linux's auxiliary data is its name. What no instruction has the code of is `unimp`.
pub fn put_raw(out: &mut String, at: usize, raw: &Raw) -> Result<(), AllocError>
    requires { at < 2 ^ 60 }
    ensures { OnOk result (string_bytes out.new ≡ string_bytes out.old ++ raw_text at raw.now) }
{
    let Some(insn) = instruction_of(raw) else {
        return put_unknown(out, at, raw.code);
    };
    let named = instruction_in(Kind::Extended, raw).unwrap_or(insn);
    put_insn(out, at, &insn, &named)
}
