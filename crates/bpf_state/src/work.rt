//! Counted work.

use crate::entries::Entries;
use crate::fault::StateFault;
use crate::known::RegState;
use crate::state::State;
use crate::transfers::transfer;
use bpf_insn::{Insn, Order, Reg};
use bpf_num::Num;
use std::marker::Model;

/// How many transfers and comparisons were made. A count at 2^32 - 1 stays there.
#[derive(Debug, Drop)]
pub struct Work {
    transfers: u32,
    comparisons: u32,
}

impl Model for Work {
    ghost use Rattle.bpf_state.specs.Work.{Counts};

    ghost Value = { Counts };

    ghost view = { λ w. record { transfers = w.transfers; comparisons = w.comparisons } };
}

impl Work {
    ghost use Rattle.std.specs.Prelude.{◌≡◌};
    ghost use Rattle.bpf_insn.specs.declared.instruction.Reg.TheVariants.{R0};
    ghost use Rattle.bpf_state.specs.declared.known.RegState.TheVariants.{Num as Number};
    ghost use Rattle.bpf_state.specs.State.{register};
    ghost use Rattle.bpf_state.specs.Transfer.{transfer};
    ghost use Rattle.bpf_state.specs.Entails.{register_entails, state_entails};
    ghost use Rattle.bpf_state.specs.Answer.{outcome_told, KeepsUnlessDone};
    ghost use Rattle.bpf_state.specs.Work.{no_work, with_transfer, with_comparison};

    /// Nothing is counted yet.
    pub fn new() -> Self
        ensures { result ≡ no_work }
    {
        Work {
            transfers: 0,
            comparisons: 0,
        }
    }

    /// How many transfers were made, those that ended in a fault too.
    pub fn transfers(&self) -> u32
        ensures { result ≡ self.now.transfers }
    {
        self.transfers
    }

    /// How many comparisons were made.
    pub fn comparisons(&self) -> u32
        ensures { result ≡ self.now.comparisons }
    {
        self.comparisons
    }

    fn count_comparison(&mut self)
        ensures { self.new ≡ with_comparison self.old }
    {
        self.comparisons = self.comparisons.saturating_add(1);
    }

    /// Answers and changes the state as `transfer` does, and counts one transfer, also at a fault.
    pub fn transfer_counted(
        &mut self,
        insn: &Insn,
        least: u32,
        order: Order,
        state: &mut State,
    ) -> Result<bool, StateFault>
        ensures outcome { outcome_told result state.new ≡ transfer order insn.now least state.old }
        ensures kept { KeepsUnlessDone result state.old state.new }
        ensures counts { self.new ≡ with_transfer self.old }
    {
        let answer = transfer(insn, least, order, state);
        self.transfers = self.transfers.saturating_add(1);
        answer
    }

    /// Whether a state lies in another, as `entails` answers it. Counts one comparison.
    pub fn entails_counted(&mut self, a: &State, b: &State) -> bool
        ensures answer { result ≡ state_entails a.now b.now }
        ensures counts { self.new ≡ with_comparison self.old }
    {
        let answer = a.entails(b);
        self.count_comparison();
        answer
    }

    /// Whether a state lies in a label's, which stands in entries, as `entails_entries` answers it. Counts one comparison.
    pub fn entails_label_counted(&mut self, a: &State, b: &Entries) -> bool
        ensures answer { result ≡ state_entails a.now b.now }
        ensures counts { self.new ≡ with_comparison self.old }
    {
        let answer = a.entails_entries(b);
        self.count_comparison();
        answer
    }

    /// Whether r0 is a number that lies in the given one. Counts one comparison.
    pub fn returns_counted(&mut self, state: &State, ret: &Num) -> bool
        ensures answer { result ≡ register_entails (register state.now R0) (Number ret.now) }
        ensures counts { self.new ≡ with_comparison self.old }
    {
        let answer = state.reg(Reg::R0).entails(RegState::Num(*ret));
        self.count_comparison();
        answer
    }
}
