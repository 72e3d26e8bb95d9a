//! Where the base of an access gets its offset: by a sum in front of it, of a constant and a number that varies.

use crate::kinds::RegisterKind;
use crate::mend::{MOST_CONSTANT, Mender};
use crate::plan::{ByteSpan, Early, Plan};
use bpf_insn::{AluOp, FRAME_BYTES, Insn, Operand, Reg, Width};

/// How many instructions may lie between a sum and the access.
const ADDED_WITHIN: u32 = 16;

/// An access that is to be guarded, and what of it is tested.
#[derive(Clone, Copy)]
pub struct GuardedSum<'a> {
    pub mender: Mender<'a>,
    pub access: u32,
    pub base: Reg,
    pub span: ByteSpan,
}

impl<'a> GuardedSum<'a> {
    /// The early test of the access, and the slot of the sum in front of which it stands, if what is added tells as much as the
    /// sum: then a loop may be counted by it. Nothing leads out of the way from there to the access.
    pub fn early(&self, plan: &Plan) -> Option<(u32, Early)> {
        if plan.options.padded {
            return None;
        }
        let slot = self.written(self.access, self.base)?;
        let register = self.added(slot)?;
        let before = self.mender.held(slot, self.base).number()?.unsigned();
        let added = self.mender.held(slot, register).number()?.unsigned();
        if before.lo() != before.hi() || before.lo() >= MOST_CONSTANT {
            return None;
        }
        let offset = i64::try_from(before.lo()).ok()?;
        let first = u64::try_from(offset.saturating_add(self.span.from)).ok()?;
        // Where the sum wraps, what is added is above the greatest, though the access may lie in its region.
        let can_lie = offset.saturating_add(self.span.to) <= self.end(plan);
        if !can_lie || plan.at(slot).early.is_some() || added.hi() > u64::MAX - first {
            return None;
        }
        // Where the region's first byte lies below the sum's, notes have to tell that the number isn't below 0.
        let is_told = added.hi() <= i64::MAX as u64 || first <= self.first_in_frame();
        if !is_told || first > 0 && self.is_untold(slot, register) {
            return None;
        }
        Some((
            slot,
            Early {
                access: self.access,
                register,
                offset,
            },
        ))
    }

    /// The first byte of the frame that the function reaches by other registers than r10, if the access goes to that.
    fn first_in_frame(&self) -> u64 {
        let function = self.mender.old.function(self.access);
        let reach = u64::from(self.mender.trial.rooms.room(function).reach);
        match self.mender.old.kind(self.access, self.base) {
            RegisterKind::Frame => (FRAME_BYTES as u64).saturating_sub(reach),
            RegisterKind::Context | RegisterKind::Number | RegisterKind::Unknown => u64::MAX,
        }
    }

    /// The offset at which the region ends.
    fn end(&self, plan: &Plan) -> i64 {
        match self.mender.old.kind(self.access, self.base) {
            RegisterKind::Frame => FRAME_BYTES as i64,
            RegisterKind::Context | RegisterKind::Number | RegisterKind::Unknown => i64::from(
                plan.length,
            ),
        }
    }

    /// The slot of the instruction that wrote a register last in front of another one.
    fn written(&self, behind: u32, r: Reg) -> Option<u32> {
        let mut slot = behind;
        for _ in 0..ADDED_WITHIN {
            slot = self.mender.old.preceding(slot)?;
            if self.mender.old.kept(slot)?.register_written() == Some(r) {
                return Some(slot);
            }
        }
        None
    }

    /// Whether an instruction wrote a register last of whose number notes tell nothing.
    fn is_untold(&self, behind: u32, r: Reg) -> bool {
        let insn = self
            .written(behind, r)
            .and_then(|slot| self.mender.old.kept(slot));
        matches!(
            insn,
            Some(Insn::MovSx { .. } | Insn::LoadSx { .. } | Insn::End { .. })
        )
    }

    /// Whether the sum adds a number of which notes tell nothing.
    pub fn adds_untold(&self) -> bool {
        let sum = self.written(self.access, self.base);
        let Some(slot) = sum else {
            return false;
        };
        self.added(slot)
            .is_some_and(|register| self.is_untold(slot, register))
    }

    /// The register that is added to the base at a slot.
    fn added(&self, slot: u32) -> Option<Reg> {
        let Insn::Alu {
            op: AluOp::Add,
            width: Width::W64,
            dst,
            src: Operand::Reg(added),
        } = *self.mender.old.kept(slot)?
        else {
            return None;
        };
        (dst == self.base && added != dst).then_some(added)
    }
}
