//! Filters: instructions of which each is without fault.

ghost use Rattle.std.specs.Prelude.{◌≡◌, ◌⊎◌, IfOk, IfErr, filter_map};
ghost use Rattle.bpf_classic.specs.Auxiliary.{instruction_in};

use crate::auxiliary::instruction_in;
use crate::faults::lowest_fault;
use crate::instruction::Classic;
use crate::raw::Raw;
use crate::refusal::{FilterRefusal, Kind};
use std::alloc::{AllocError, Global};
use std::marker::Model;

/// The most instructions of a filter.
pub const MAX_FILTER: usize = 4096;

fn instructions(alloc: Global, kind: Kind, raws: &[Raw]) -> Result<Vec<Classic>, AllocError>
    ensures { IfOk result (λ v. v.items ≡ filter_map (instruction_in kind) raws.now) }
{
    let mut list = Vec::with_capacity(alloc, raws.len())?;
    for raw in raws {
        if let Some(i) = instruction_in(kind, raw) {
            list.push(i)?;
        }
    }
    Ok(list)
}

/// A valid filter: 1 to 4,096 instructions, each without fault.
#[derive(Drop)]
pub struct Filter {
    kind: Kind,
    list: Vec<Classic>,
}

impl Model for Filter {
    ghost use Rattle.bpf_classic.specs.Valid.{Instructions, IsFilter};

    ghost Value = { Instructions };

    ghost view = { λ f. record { kind = f.kind; list = f.list.items } };

    ghost invariant = { λ f. IsFilter f.kind f.list.items };
}

impl Filter {
    ghost use Rattle.bpf_classic.specs.Valid.{IsRefused, IsFilter};

    /// The filter of these instructions, for packets or for seccomp: 1 to 4,096 of them, each without fault. The refusals
    /// come in this order: B1; of the lowest instruction with a fault the first of B2 to B7; B9 if memory runs out.
    pub fn new(alloc: Global, kind: Kind, raws: &[Raw]) -> Result<Filter, FilterRefusal>
        ensures ok { IfOk result (λ f. (f.kind ≡ kind) × (f.list ≡ filter_map (instruction_in kind) raws.now)) }
        ensures valid { IfOk result (λ f. IsFilter f.kind f.list) }
        ensures err { IfErr result (λ e. IsRefused kind raws.now e) }
    {
        if raws.is_empty() || raws.len() > MAX_FILTER {
            return Err(FilterRefusal::Length);
        }
        if let Some((at, fault)) = lowest_fault(kind, raws) {
            return Err(FilterRefusal::Instruction { at, fault });
        }
        match instructions(alloc, kind, raws) {
            Ok(list) => Ok(Filter { kind, list }),
            Err(_) => Err(FilterRefusal::Memory),
        }
    }

    /// What it is for.
    pub fn kind(&self) -> Kind
        ensures { result ≡ self.now.kind }
    {
        self.kind
    }

    /// Its instructions.
    pub fn instructions(&self) -> &[Classic]
        ensures same { result.now ≡ self.now.list }
        ensures valid { IsFilter self.now.kind self.now.list }
    {
        &self.list
    }
}
