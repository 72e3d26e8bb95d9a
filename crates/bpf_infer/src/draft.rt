//! Drafts: the functions of a program with the states at their labels, for which the deep search seeks budgets; and what a call of a function
//! costs, the budget at its entry.

use bpf_cert::{Function, MAX_TERMS};
use bpf_infer_base::{Blocks, LinearTerm, NumberSpan, Task};
use bpf_num::Num;
use bpf_state::State;
use std::alloc::{AllocError, Global};

/// The functions of a program on the lengths of a quest, with the states at their labels.
#[derive(Clone, Copy)]
pub struct LabelledFunctions<'a> {
    /// All blocks of the program, and what its functions return.
    pub whole: Task<'a>,
    /// By their numbers.
    pub functions: &'a [Function],
}

/// What each function returns.
pub fn rets_of(alloc: Global, functions: &[Function]) -> Result<Vec<Num>, AllocError> {
    functions.iter().map(|function| function.ret).collect(alloc)
}

impl<'a> LabelledFunctions<'a> {
    /// Functions of a program that return what these numbers say.
    pub fn of(task: Task<'a>, functions: &'a [Function], rets: &'a [Num]) -> LabelledFunctions<'a> {
        LabelledFunctions {
            whole: Task { rets, ..task },
            functions,
        }
    }

    /// A function's blocks, each numbered as the label that it begins with.
    pub fn blocks(&self, number: usize, function: &Function) -> Result<Blocks, AllocError> {
        let slots: Vec<u32> = function
            .labels
            .iter()
            .map(|label| label.slot)
            .collect(self.whole.alloc)?;
        let end = self.whole.cfg.first_slot(number.saturating_add(1));
        Blocks::of(self.whole.alloc, function.first, end, &slots)
    }

    /// What a walk over a function's blocks is given.
    pub fn task<'b>(&'b self, blocks: &'b Blocks) -> Task<'b> {
        Task {
            blocks,
            ..self.whole
        }
    }
}

/// The budget at the entry of a function: a base, and lines over what places hold.
#[derive(Clone, Copy)]
pub struct Price {
    pub base: i128,
    pub lines: [Option<(usize, LinearTerm)>; MAX_TERMS],
}

impl Price {
    /// Nothing.
    pub const NONE: Price = Price {
        base: 0,
        lines: [None; MAX_TERMS],
    };

    /// The greatest budget over a state.
    pub fn greatest(&self, state: &State) -> i128 {
        let mut sum = self.base;
        for (number, line) in self.lines.into_iter().flatten() {
            sum = sum.saturating_add(line.greatest(NumberSpan::of(state, number)));
        }
        sum
    }
}
