//! The header of a file of captured packets, and its records.

ghost use Rattle.std.specs.Prelude.{◌≡◌, ◌≤◌, length, IfOk, IfErr, IsTrue, ◌↔◌};
ghost use Rattle.bpf_insn.specs.Order.{number_of};
ghost use Rattle.bpf_captures.specs.Capture.{IsMagic, RestIsThere};
ghost use Rattle.bpf_captures.specs.Taken.{IsCutOff, IsRefusedHeader, IsRefusedRecord, NoHeader, TakesBytes, TakesHeader, TakesPacket};

use crate::error::CaptureError;
use crate::fill::{fill, skip};
use bpf_insn::instruction::Size;
use bpf_insn::{Order, number_in};
use std::io::Read;

/// The first number of a file with times in microseconds, and of one with times in nanoseconds.
const MICRO: u64 = 0xa1b2_c3d4;

const NANO: u64 = 0xa1b2_3c4d;

/// The first number of a file of the form "pcapng", the same in both byte orders.
const NEW_FORM: u64 = 0x0a0d_0d0a;

/// The bytes of a header, and those of a record in front of its packet.
const HEADER_BYTES: usize = 24;

const HEAD_BYTES: usize = 16;

/// Whether the first number in a byte order is one of a capture file.
fn is_magic(order: Order, header: &[u8]) -> bool
    requires { 4 ≤ length header.now }
    ensures { IsTrue result ↔ IsMagic (number_of order 4 header.now) }
{
    let first = number_in(order, Size::W, header);
    first == MICRO || first == NANO
}

/// The byte order of a header.
fn order_of(header: &[u8]) -> Result<Order, CaptureError>
    requires { length header.now ≡ 24 }
    ensures ok { IfOk result (λ order. IsMagic (number_of order 4 header.now)) }
    ensures err { IfErr result (NoHeader header.now) }
{
    if is_magic(Order::Little, header) {
        return Ok(Order::Little);
    }
    if is_magic(Order::Big, header) {
        return Ok(Order::Big);
    }
    if number_in(Order::Little, Size::W, header) == NEW_FORM {
        return Err(CaptureError::NewForm);
    }
    Err(CaptureError::OtherForm)
}

/// Takes the header of a file of captured packets from a reader, and gives the byte order of the file's numbers. P1, P2, P3, P5.
pub fn read_header<R: Read>(reader: &mut R) -> Result<Order, CaptureError>
    ensures ok { IfOk result (TakesHeader (R.remaining reader.old) (R.remaining reader.new)) }
    ensures err { IfErr result (IsRefusedHeader (R.remaining reader.old)) }
{
    let mut header = [0; HEADER_BYTES];
    match fill(reader, &mut header) {
        Ok(HEADER_BYTES) => order_of(&header),
        Ok(_fewer) => Err(CaptureError::ShortHeader),
        Err(_fault) => Err(CaptureError::Unreadable),
    }
}

/// Takes so many bytes of a packet from a reader, and puts the first of them at the front of the room, as many as fit. P4, P5.
fn take_packet<R: Read>(reader: &mut R, count: usize, room: &mut [u8]) -> Result<(), CaptureError>
    ensures ok { IfOk result (λ _. TakesBytes (R.remaining reader.old) (R.remaining reader.new) count (length room.old) room.new) }
    ensures err { IfErr result (IsCutOff (R.remaining reader.old) count) }
{
    let kept = count.min(room.len());
    match fill(reader, &mut room[..kept]) {
        Ok(taken) if taken == kept => {}
        Ok(_fewer) => return Err(CaptureError::ShortRecord),
        Err(_fault) => return Err(CaptureError::Unreadable),
    }
    match skip(reader, count - kept) {
        Ok(passed) if passed == count - kept => Ok(()),
        Ok(_fewer) => Err(CaptureError::ShortRecord),
        Err(_fault) => Err(CaptureError::Unreadable),
    }
}

/// Takes the next record of a file in this byte order from a reader, puts the first bytes of its packet at the front of the room, as many
/// as fit, and tells how many bytes of the packet were captured; None at the end. P4, P5.
pub fn next_packet<R: Read>(
    reader: &mut R,
    order: Order,
    room: &mut [u8],
) -> Result<Option<usize>, CaptureError>
    ensures ok { IfOk result (TakesPacket order (R.remaining reader.old) (R.remaining reader.new) (length room.old) room.new) }
    ensures err { IfErr result (IsRefusedRecord order (R.remaining reader.old)) }
{
    let mut head = [0; HEAD_BYTES];
    match fill(reader, &mut head) {
        Ok(HEAD_BYTES) => {}
        Ok(0) => return Ok(None),
        Ok(_fewer) => return Err(CaptureError::ShortRecord),
        Err(_fault) => return Err(CaptureError::Unreadable),
    }
    let count = number_in(order, Size::W, &head[8..]) as usize;
    match take_packet(reader, count, room) {
        Ok(()) => Ok(Some(count)),
        Err(error) => Err(error),
    }
}

/// Behind the records of packets the rest of a file begins, at the byte that is told of it.
pub fn rest_is_there()
    ensures { RestIsThere }
{}
