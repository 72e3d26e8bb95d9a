//! Hardened programs.

ghost use Rattle.std.specs.Prelude.{◌≤◌};
ghost use Rattle.bpf_insn.specs.Limits.{frame_bytes};

use crate::notes::{FunctionNote, Note};
use bpf_cert::Certificate;
use bpf_insn::{FRAME_BYTES, Program};

/// A hardened program, and what was done.
#[derive(Drop)]
pub struct Hardened {
    pub program: Program,
    /// What the search that hardening ended with found for it. None where guards were put wherever one can be.
    pub certificate: Option<Certificate>,
    /// By slots of the old program, where its instruction is in the new one, with what was put in front of it. None where it
    /// was left out, and at second slots.
    pub slots: Vec<Option<u32>>,
    /// By the functions' first slots. Empty where the program came out unchanged.
    pub functions: Vec<FunctionNote>,
    /// By their slots in the new program. Empty where the program came out unchanged.
    pub notes: Vec<Note>,
}

impl Hardened {
    /// How many of the lowest bytes of each frame hardening keeps accesses of the old program from.
    pub fn taken(&self) -> u32
        ensures { result ≤ frame_bytes }
    {
        let mut deepest = 0;
        for function in &self.functions {
            deepest = function.reach.max(deepest);
        }
        (FRAME_BYTES as u32).saturating_sub(deepest)
    }
}
