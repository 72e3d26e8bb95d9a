//! Registers of which nothing is known since a pointer comes to a label on one way and a number on another, as with `NULL`.

use crate::pass::{Observer, pass_over};
use crate::sight::Sight;
use crate::trail::Trail;
use crate::words::register;
use bpf_check::Index;
use bpf_insn::{Code, Reg};
use bpf_state::{RegState, State};
use bpf_streams::Tell;

/// How many labels, one before the other, are looked at, each in a pass over the program.
const LABELS: u32 = 8;

/// A register at a label.
#[derive(Clone, Copy)]
struct AtLabel {
    label: u32,
    reg: Reg,
}

/// The register that held at the last label what one holds at a slot behind it.
fn origin_at<C: Code>(sight: &Sight<'_, C>, slot: u32, reg: Reg) -> Option<AtLabel> {
    let label = sight.here?.label.slot;
    let trail = Trail::between(sight.program, label, slot);
    let reg = trail.held(reg).sum.register_before()?;
    Some(AtLabel { label, reg })
}

/// What comes to a label in a register: the first slots from which a pointer comes and a number, and where that is from of which
/// nothing is known.
#[derive(Drop)]
struct Arrivals {
    at: AtLabel,
    pointer: Option<u32>,
    number: Option<u32>,
    unknown: Option<AtLabel>,
}

impl Arrivals {
    /// What comes to a label in a register.
    fn of<C: Code>(program: &C, certificate: &Index, at: AtLabel) -> Self {
        let mut arrivals = Arrivals {
            at,
            pointer: None,
            number: None,
            unknown: None,
        };
        let _ = pass_over(program, certificate, false, &mut arrivals);
        arrivals
    }

    /// Takes note of what goes along a way from an instruction.
    fn note<C: Code>(&mut self, sight: &Sight<'_, C>, state: &State) {
        let (slot, reg) = (sight.site.here.slot, self.at.reg);
        match state.reg(reg) {
            RegState::Ptr(_) => self.pointer = self.pointer.or(Some(slot)),
            RegState::Num(_) => self.number = self.number.or(Some(slot)),
            RegState::Any if self.unknown.is_none() => {
                self.unknown = origin_at(sight, slot.saturating_add(1), reg);
            }
            RegState::Any => {}
        }
    }

    /// Tells from where a pointer comes and from where a number, if both do. Whether they do.
    fn tell<W: Tell>(&self, out: &mut W) -> bool {
        let (Some(pointer), Some(number)) = (self.pointer, self.number) else {
            return false;
        };
        let (name, label) = (register(self.at.reg), self.at.label);
        write!(
            out,
            "; {name} is a pointer on the way from slot {pointer} to slot {label}, and a number on the one from slot {number}, as with NULL: use an offset and a flag"
        );
        true
    }
}

impl<C: Code> Observer<C> for Arrivals {
    fn observe(&mut self, sight: &Sight<'_, C>) -> bool {
        for way in sight.ways().into_iter().flatten() {
            if way.edge.is_live && way.edge.to == self.at.label {
                self.note(sight, way.state);
            }
        }
        true
    }
}

/// Tells at which label ways with a pointer and with a number meet, if a register that is read holds what comes from there.
pub fn tell_mixed<C: Code, W: Tell>(
    out: &mut W,
    sight: &Sight<'_, C>,
    reg: Reg,
    certificate: &Index,
) {
    let mut origin = origin_at(sight, sight.site.here.slot, reg);
    for _ in 0..LABELS {
        let Some(at) = origin else {
            break;
        };
        let arrivals = Arrivals::of(sight.program, certificate, at);
        if arrivals.tell(out) {
            break;
        }
        origin = arrivals.unknown;
    }
}
