//! What a certificate knows of numbers in front of each instruction.

use bpf_cert::Certificate;
use bpf_check::{Index, Site, Spot, Walk, arrive};
use bpf_follows::{go_on, stated};
use bpf_infer_base::{put, vacant};
use bpf_insn::{Code, Program, Reg};
use bpf_state::{Entries, RegState, State, Work};
use std::alloc::{AllocError, Global};

/// The numbers in the registers of a state, in little memory.
fn numbers_in(alloc: Global, state: &State) -> Result<Entries, AllocError> {
    let mut numbers = State::blank();
    for number in 0..10u8 {
        let r = Reg::numbered(number);
        if let RegState::Num(number) = state.reg(r) {
            numbers.set_reg(r, RegState::Num(number));
        }
    }
    Entries::of(alloc, &numbers)
}

/// Those of the state with which a walk stands in front of an instruction, if one reaches it.
fn numbers_at(alloc: Global, walk: &Walk<'_>) -> Result<Option<Entries>, AllocError> {
    match stated(walk) {
        Some(state) => Ok(Some(numbers_in(alloc, state)?)),
        None => Ok(None),
    }
}

/// Those of each slot, beside a certificate.
fn walked(
    alloc: Global,
    new: &Program,
    certificate: &Index,
) -> Result<Vec<Option<Entries>>, AllocError> {
    let mut numbers = vacant(alloc, Code::slots(new) as usize)?;
    let mut walk = Walk::new();
    let mut work = Work::new();
    let mut here = Spot::of(certificate, 0);
    'insns: while let Some(insn) = new.insn(here.slot) {
        let site = Site::of(certificate, here, insn);
        let _never = arrive(&site.here, &mut walk);
        put(&mut numbers, here.slot as usize, numbers_at(alloc, &walk)?);
        go_on(new, &site, &mut walk, &mut work);
        here = site.next;
    }
    Ok(numbers)
}

/// By the slots of a program, the numbers in registers with which its certificate's walk stands in front of the instructions. None where none reaches
/// one, and at second slots.
pub fn numbers_of(
    alloc: Global,
    new: &Program,
    certificate: &Certificate,
) -> Result<Vec<Option<Entries>>, AllocError> {
    certificate.valid();
    walked(alloc, new, &Index::of(certificate))
}
