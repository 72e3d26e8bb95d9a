//! `struct sock_filter`: eight bytes, of which two are the code, one each the two distances of a jump, and four the constant.

ghost use Rattle.std.specs.Prelude.{◌≡◌, ◌≤◌, ◌⊎◌, length, Ok, Err, IfOk, IfErr};
ghost use Rattle.bpf_classic.specs.Bytes.{raw_bytes, raw_in, raws_in, whole_raws};
ghost use Rattle.bpf_classic.specs.declared.fault.TextFault.TheVariants.{Memory};

use crate::fault::TextFault;
use crate::raw::Raw;
use bpf_insn::Order;
use std::alloc::{AllocError, Global};

/// The bytes of an instruction.
const RAW_BYTES: usize = 8;

/// The instruction that bytes begin with.
fn raw_in(order: Order, b: &[u8]) -> Raw
    requires { raw_bytes ≤ length b.now }
    ensures { result ≡ raw_in order b.now }
{
    let (code, k) = match order {
        Order::Little => (
            u16::from_le_bytes([b[0], b[1]]),
            u32::from_le_bytes([b[4], b[5], b[6], b[7]]),
        ),
        Order::Big => (
            u16::from_be_bytes([b[0], b[1]]),
            u32::from_be_bytes([b[4], b[5], b[6], b[7]]),
        ),
    };
    Raw {
        code,
        jt: b[2],
        jf: b[3],
        k,
    }
}

fn whole_raws(alloc: Global, bytes: &[u8], order: Order) -> Result<Vec<Raw>, AllocError>
    ensures { IfOk result (λ raws. raws.items ≡ whole_raws order bytes.now) }
{
    let count = bytes.len() / RAW_BYTES;
    let mut raws = Vec::with_capacity(alloc, count)?;
    'raws: for at in 0..count {
        raws.push(raw_in(order, &bytes[RAW_BYTES * at..]))?;
    }
    Ok(raws)
}

/// The instructions that bytes are, eight for each, with numbers in this order.
pub fn raws_in(alloc: Global, bytes: &[u8], order: Order) -> Result<Vec<Raw>, TextFault>
    ensures ok { IfOk result (λ raws. raws_in order bytes.now ≡ Ok raws.items) }
    ensures err { IfErr result (λ fault. (fault ≡ Memory) ⊎ (raws_in order bytes.now ≡ Err fault)) }
{
    if bytes.len() % RAW_BYTES != 0 {
        return Err(TextFault::Part {
            at: bytes.len() / RAW_BYTES,
        });
    }
    match whole_raws(alloc, bytes, order) {
        Ok(raws) => Ok(raws),
        Err(_no_memory) => Err(TextFault::Memory),
    }
}
