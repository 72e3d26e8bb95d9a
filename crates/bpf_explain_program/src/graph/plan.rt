//! Where blocks and functions begin.

ghost use Rattle.std.specs.Prelude.{◌≤◌};
ghost use Rattle.bpf_insn.specs.Limits.{greatest_slot};

use bpf_cert::Function;
use bpf_check::{Index, jump_target};
use bpf_infer_base::SlotSet;
use bpf_insn::{Code, Insn, MAX_SLOTS, target};

/// Where blocks and functions begin.
#[derive(Drop)]
pub struct GraphPlan {
    pub blocks: SlotSet,
    pub functions: SlotSet,
}

/// Where a call leads.
pub fn call_target(slot: u32, insn: &Insn) -> Option<u32>
    requires { slot ≤ greatest_slot }
{
    if let Insn::CallLocal { off } = *insn {
        target(slot, off)
    } else {
        None
    }
}

impl GraphPlan {
    /// The blocks by the program's jumps and calls, the functions where calls lead; with a certificate its functions, and blocks by its
    /// labels, too.
    pub fn of<C: Code>(program: &C, certificate: Option<&Index>) -> GraphPlan {
        let mut plan = GraphPlan {
            blocks: SlotSet::none(),
            functions: SlotSet::none(),
        };
        plan.blocks.add(0);
        plan.functions.add(0);
        for slot in 0..program.slots().min(MAX_SLOTS as u32) {
            if let Some(insn) = program.insn(slot) {
                plan.note_jump(slot, &insn);
                plan.note_call(slot, &insn);
            }
        }
        if let Some(certificate) = certificate {
            plan.note_functions(certificate);
        }
        plan
    }

    /// A block ends at a jump and at an EXIT, and one begins where a jump leads.
    fn note_jump(&mut self, slot: u32, insn: &Insn)
        requires { slot ≤ greatest_slot }
    {
        let to = jump_target(slot, insn);
        if to.is_some() || !insn.goes_on() {
            self.blocks.add(slot + 1);
        }
        if let Some(to) = to {
            self.blocks.add(to);
        }
    }

    /// A block and a function begin where a call leads.
    fn note_call(&mut self, slot: u32, insn: &Insn)
        requires { slot ≤ greatest_slot }
    {
        if let Some(to) = call_target(slot, insn) {
            self.blocks.add(to);
            self.functions.add(to);
        }
    }

    /// Functions begin where a certificate says so.
    fn note_functions(&mut self, certificate: &Index) {
        self.functions = SlotSet::none();
        for function in certificate.functions() {
            self.functions.add(function.first);
            self.note_blocks(function);
        }
    }

    /// Blocks begin at a function's first slot and at its labels.
    fn note_blocks(&mut self, function: &Function) {
        self.blocks.add(function.first);
        for label in function.labels.as_slice() {
            self.blocks.add(label.slot);
        }
    }
}
