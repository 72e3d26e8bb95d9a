//! The regions of memory that accesses by offsets go to.

use crate::edits::FRAME_END;
use crate::kinds::RegisterKind;
use crate::plan::Plan;
use crate::rooms::Room;
use bpf_insn::Reg;
use bpf_state::Place;

/// What an access by an offset goes to.
#[derive(Clone, Copy)]
pub struct AccessRegion {
    /// The first offset that may be accessed, and how many bytes there are from there on.
    pub start: i64,
    pub bytes: i64,
    /// Where a pointer into it is kept, and the offset that this pointer stands for.
    pub base: Place,
    pub origin: i64,
    /// Where the offset is kept at which it ends, if that is known as the program runs.
    pub end: Option<Place>,
}

impl AccessRegion {
    /// The region that a function reaches by registers of a kind, if these hold offsets.
    pub fn of(plan: &Plan, room: &Room, kind: RegisterKind) -> Option<AccessRegion> {
        match kind {
            RegisterKind::Context if plan.offsets => {
                Some(AccessRegion {
                    start: plan.start(),
                    bytes: i64::from(plan.length).saturating_sub(plan.start()),
                    base: room.base?,
                    origin: 0,
                    end: room.end,
                })
            }
            RegisterKind::Frame if plan.frames => {
                let end = i64::from(FRAME_END);
                let depth = i64::from(room.reach).min(end);
                Some(AccessRegion {
                    start: end.saturating_sub(depth),
                    bytes: depth,
                    base: Place::Register(Reg::R10),
                    origin: end,
                    end: None,
                })
            }
            _ => None,
        }
    }

    /// Whether an access of so many bytes at an offset lies in it.
    pub fn holds(&self, offset: i64, bytes: i64) -> bool {
        let end = self.start.saturating_add(self.bytes);
        self.start <= offset && offset.saturating_add(bytes) <= end
    }
}
