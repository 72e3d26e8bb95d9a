//! Guards in front of a sum, by what is added: both what is added and the sum are bounded behind them.

use crate::plan::{Early, Guard};
use crate::region::AccessRegion;
use crate::writer::TextWriter;
use std::alloc::AllocError;

impl<'a> TextWriter<'a> {
    /// Tests what is added to the base of an access.
    pub fn test_early(&mut self, early: Early) -> Result<(), AllocError> {
        let room = self.rooms.room(self.old.function(early.access));
        let Some(access) = self.old.access(early.access) else {
            return Ok(());
        };
        let kind = self.old.kind(early.access, access.base);
        let region = AccessRegion::of(self.plan, &room, kind);
        match (region, self.plan.at(early.access).guard) {
            (Some(region), Some(guard)) => self.test_added(early, guard, region),
            _ => Ok(()),
        }
    }

    /// Leads to the trap where what is added brings an access out of its region.
    fn test_added(
        &mut self,
        early: Early,
        guard: Guard,
        region: AccessRegion,
    ) -> Result<(), AllocError> {
        let start = region.start.saturating_sub(early.offset);
        let least = start.saturating_sub(guard.span.from);
        let most = start
            .saturating_add(region.bytes)
            .saturating_sub(guard.span.to);
        self.guard_between(early.access, guard, early.register, least, most)
    }
}
