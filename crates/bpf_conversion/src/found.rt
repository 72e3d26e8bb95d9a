//! What is found out about a program before its labels are made.

ghost use Rattle.std.specs.Prelude.{◌≡◌, IfOk};
ghost use Rattle.bpf_conversion.specs.Outline.{IsNarrow, IsFound};

use crate::leaders::leaders;
use crate::ways::{longest_turn, longest_ways};
use bpf_insn::Program;
use std::alloc::{AllocError, Global};

/// The longest way from each slot, the longest one from where a jump back leads, and which slots are leaders.
#[derive(Drop)]
pub struct Outline {
    pub steps: Vec<u32>,
    pub turn: u32,
    pub leaders: Vec<bool>,
}

impl Outline {
    /// What a program tells.
    pub fn of(alloc: Global, program: &Program) -> Result<Outline, AllocError>
        requires { IsNarrow program.now.list }
        ensures { IfOk result (IsFound program.now.list) }
    {
        let steps = longest_ways(alloc, program)?;
        let turn = longest_turn(program, &steps);
        let leaders = leaders(alloc, program)?;
        Ok(Outline {
            steps,
            turn,
            leaders,
        })
    }
}
