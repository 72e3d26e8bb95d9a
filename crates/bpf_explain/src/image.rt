//! Why bytes are no image, in words.

ghost use Rattle.std.specs.Prelude.{◌≤◌, IfSome, length};

use bpf_insn::{
    Choice, DecodeError, FieldSet, Fields, Insn, LeftOut, MAX_IMAGE, MAX_SLOTS, Order, ProgramView,
    SlotFault, Use, fields_from, insn_from, uses_of,
};
use bpf_streams::{Page, Tell};
use std::io::{self, Write};
use std::str::from_utf8;

/// How many fields there are that may be unused.
const UNUSED: usize = 5;

/// The name of a field by a number below 5, if it is one of some.
fn name_among(fields: FieldSet, number: usize) -> Option<&'static str> {
    match number {
        0 if fields.dst => Some("dst"),
        1 if fields.src => Some("src"),
        2 if fields.offset => Some("offset"),
        3 if fields.imm => Some("imm"),
        4 if fields.reserved => Some("the reserved bits"),
        _ => None,
    }
}

/// E4: the fields that must be zero.
fn tell_unused<W: Tell>(out: &mut W, fields: FieldSet) {
    let (mut comma, mut used) = ("", "it");
    for number in 0..UNUSED {
        if let Some(name) = name_among(fields, number) {
            write!(out, "{comma}{name}");
            used = if comma.is_empty() && !fields.reserved {
                "it"
            } else {
                "them"
            };
            comma = " and ";
        }
    }
    write!(out, " must be zero: the instruction doesn't use {used}\n");
}

/// E3: the register that is none.
fn tell_register<W: Tell>(out: &mut W, fields: Fields) {
    let (name, number) = if fields.dst > 10 {
        ("dst", fields.dst)
    } else {
        ("src", fields.src)
    };
    write!(out, "{name} is {number}: registers are 0 to 10\n");
}

/// What the field of an opcode selects that selects something.
fn choice_of(opcode: u8) -> Option<Choice> {
    let uses = uses_of(opcode)?;
    match (uses.src, uses.offset, uses.imm) {
        (Use::Selects(choice), _, _) => Some(choice),
        (_, Use::Selects(choice), _) => Some(choice),
        (_, _, Use::Selects(choice)) => Some(choice),
        _ => None,
    }
}

/// E5: the values of a field that selects the operation.
fn choices_of(choice: Option<Choice>) -> &'static str {
    match choice {
        Some(Choice::Signedness) => "offset must be 0, without sign, or 1, with sign\n",
        Some(Choice::MoveBits32) => "offset must be 0, or 8 or 16 for a move with sign\n",
        Some(Choice::MoveBits64) => "offset must be 0, or 8, 16 or 32 for a move with sign\n",
        Some(Choice::SwapBits) => "imm must be 16, 32 or 64, the bits that are swapped\n",
        Some(Choice::AtomicCode) => {
            "imm must be 0x00, 0x40, 0x50 or 0xa0, each also with 1 more for a fetch, 0xe1 or 0xf1\n"
        }
        Some(Choice::Callee) => "src must be 1, for a call of a function of the program\n",
        None => "no field selects the operation\n",
    }
}

/// What stands in front of a number and behind it in what is told of an instruction that is left out.
fn left_out_words(what: LeftOut) -> (&'static str, &'static str) {
    match what {
        LeftOut::Constant => (
            "a 64-bit constant with src ",
            " names a map or a variable: this profile has none",
        ),
        LeftOut::Helper => (
            "a call with src 0 calls helper ",
            ": this profile has no helpers",
        ),
        LeftOut::KernelFunction => (
            "a call with src ",
            " calls a function of the kernel: this profile has none",
        ),
        LeftOut::Packet => ("packet access", ""),
    }
}

/// E7: what the instruction would be.
fn tell_left_out<W: Tell>(out: &mut W, fields: Fields, what: LeftOut) {
    if let LeftOut::Packet = what {
        return out.say("packet access is left out of this profile: read the context by r1\n");
    }
    let number = match what {
        LeftOut::Helper => fields.imm,
        _ => i32::from(fields.src),
    };
    let (front, behind) = left_out_words(what);
    write!(out, "{front}{number}{behind}\n");
}

/// What is wrong with a slot.
fn tell_fault<W: Tell>(out: &mut W, fields: Fields, fault: SlotFault) {
    let opcode = fields.opcode;
    match fault {
        SlotFault::Opcode => write!(out, "no instruction has the opcode {opcode:02x}\n"),
        SlotFault::Register => tell_register(out, fields),
        SlotFault::Unused { fields: wrong } => tell_unused(out, wrong),
        SlotFault::Selector => out.say(choices_of(choice_of(opcode))),
        SlotFault::Truncated => {
            out.say("the second slot of the 64-bit constant is missing: the image ends here\n");
        }
        SlotFault::LeftOut { what } => tell_left_out(out, fields, what),
    }
}

/// The bytes of a slot.
fn tell_bytes<W: Tell>(out: &mut W, bytes: &[u8]) {
    out.say("  bytes");
    for value in bytes.iter().take(8) {
        let value = *value;
        write!(out, " {value:02x}");
    }
}

/// The fields of a slot.
fn tell_fields<W: Tell>(out: &mut W, fields: Fields) {
    let (opcode, dst, src) = (fields.opcode, fields.dst, fields.src);
    let (offset, imm) = (fields.offset, fields.imm);
    write!(
        out,
        ": opcode {opcode:02x}, dst {dst}, src {src}, offset {offset}, imm {imm}\n"
    );
}

// ---- the image

/// Whether a byte stands in a text: printed, or a blank or an end of line.
fn is_printed(byte: u8) -> bool {
    matches!(byte, b'\t' | b'\n' | b'\r') || byte >= 32 && byte != 127
}

/// Whether bytes are a text.
fn is_text(bytes: &[u8]) -> bool {
    !bytes.is_empty() && bytes.iter().all(|byte| is_printed(*byte)) && from_utf8(bytes).is_ok()
}

/// What bytes are that begin as an ELF object or a certificate does, or are a text.
fn likeness_of(bytes: &[u8]) -> Option<&'static str> {
    if bytes.starts_with(b"\x7fELF") {
        return Some(
            "these bytes are an ELF object and no image: take its code, as by llvm-objcopy -O binary -j .text IN OUT\n",
        );
    }
    if bytes.starts_with(b"bpfcert ") {
        return Some(
            "these bytes are a certificate and no image: the image comes first, and behind it its certificate\n",
        );
    }
    if is_text(bytes) {
        return Some("these bytes are a text and no image: assemble it, as by bpf asm IN OUT\n");
    }
    None
}

/// Whether bytes are an image in the other byte order, and what is told then.
fn other_order(order: Order, bytes: &[u8]) -> (bool, &'static str) {
    match order {
        Order::Little => (
            ProgramView::of(bytes, Order::Big).is_ok(),
            "in big-endian order these bytes are an image: try --big\n",
        ),
        Order::Big => (
            ProgramView::of(bytes, Order::Little).is_ok(),
            "in little-endian order these bytes are an image: leave --big out\n",
        ),
    }
}

/// Tells what bytes are that are no image in a byte order, where they look like something else.
fn tell_likeness<W: Tell>(out: &mut W, order: Order, bytes: &[u8]) {
    if let Some(likeness) = likeness_of(bytes) {
        out.say(likeness);
    }
    let (is_image, words) = other_order(order, bytes);
    if is_image {
        out.say(words);
    }
}

// The greatest size, as the words for E1 tell it.
const _: () = prove!(MAX_IMAGE == 524288 && MAX_SLOTS == 65536);

/// E1: what is wrong with the number of bytes.
fn tell_length<W: Tell>(out: &mut W, length: usize) {
    if length == 0 {
        return out.say("E1: there are no bytes: an image has at least one slot of 8 bytes\n");
    }
    if length > MAX_IMAGE {
        // Who reads a longer image may have stopped behind so many bytes.
        return out.say("E1: more than 524288 bytes: an image has at most 65536 slots of 8 bytes\n");
    }
    write!(
        out,
        "E1: {length} bytes are no multiple of 8, the size of a slot\n"
    );
}

/// What stands from a slot on, where a whole one does.
fn from_slot(bytes: &[u8], slot: u32) -> Option<&[u8]>
    ensures { IfSome result (λ rest. 8 ≤ length rest.now) }
{
    let start = (slot as usize).saturating_mul(8);
    match bytes.get(start..) {
        Some(rest) => if rest.len() < 8 { None } else { Some(rest) },
        None => None,
    }
}

/// A slot that is refused.
fn tell_slot<W: Tell>(out: &mut W, order: Order, bytes: &[u8], slot: u32, fault: SlotFault) {
    let number = fault.number();
    let Some(rest) = from_slot(bytes, slot) else {
        return write!(out, "E{number} at slot {slot}\n");
    };
    write!(out, "E{number} at slot {slot}: ");
    let fields = fields_from(order, rest);
    tell_fault(out, fields, fault);
    tell_bytes(out, rest);
    tell_fields(out, fields);
}

/// What leads from a slot: `jumps to`, and the slot there.
fn lead_of(insn: Insn, slot: u32) -> Option<(&'static str, i64)> {
    let by = i64::from(insn.distance()?);
    let is_call = matches!(insn, Insn::CallLocal { .. });
    let verb = if is_call { "calls" } else { "jumps to" };
    Some((verb, i64::from(slot).saturating_add(1).saturating_add(by)))
}

/// What leads from a slot of an image.
fn lead_at(order: Order, bytes: &[u8], slot: u32) -> Option<(&'static str, i64)> {
    let insn = insn_from(order, from_slot(bytes, slot)?)?;
    lead_of(insn, slot)
}

/// The last of so many slots, if a jump leads to none of them.
fn last_before(slots: usize, to: i64) -> Option<usize> {
    match usize::try_from(to) {
        Ok(to) if to < slots => None,
        _ => Some(slots.saturating_sub(1)),
    }
}

/// Where a jump leads that leads to no instruction.
fn tell_lead<W: Tell>(out: &mut W, slots: usize, to: i64) {
    match last_before(slots, to) {
        Some(last) => write!(out, "outside of the program's slots, 0 to {last}\n"),
        None => out.say("which is the second slot of a 64-bit constant\n"),
    }
}

/// A jump or call that leads to no instruction.
fn tell_target<W: Tell>(out: &mut W, order: Order, bytes: &[u8], slot: u32) {
    let Some((verb, to)) = lead_at(order, bytes, slot) else {
        return write!(out, "E8 at slot {slot}\n");
    };
    write!(out, "E8 at slot {slot}: {verb} slot {to}, ");
    tell_lead(out, bytes.len() / 8, to);
    if let Some(rest) = from_slot(bytes, slot) {
        tell_bytes(out, rest);
        tell_fields(out, fields_from(order, rest));
    }
}

/// Tells a refusal.
fn tell_error<W: Tell>(out: &mut W, order: Order, bytes: &[u8], error: DecodeError) {
    tell_likeness(out, order, bytes);
    match error {
        DecodeError::Length => tell_length(out, bytes.len()),
        DecodeError::Slot { slot, fault } => tell_slot(out, order, bytes, slot, fault),
        DecodeError::Target { slot } => tell_target(out, order, bytes, slot),
        DecodeError::Memory => write!(out, "E9: {error}\n"),
        DecodeError::Read { .. } => write!(out, "E10 {error}\n"),
    }
}

/// Tells in words why bytes are refused as an image in a byte order, with the bytes of the slot taken apart and what would be
/// right. A fault of the writer, or a write of no bytes, ends it. It takes no memory.
pub fn write_refusal<W: Write>(
    bytes: &[u8],
    order: Order,
    error: DecodeError,
    out: &mut W,
) -> io::Result<()> {
    let mut page = Page::new(out);
    tell_error(&mut page, order, bytes, error);
    page.finish()
}
