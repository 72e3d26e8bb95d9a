//! Conditions on where instructions lead to.

use crate::sight::Sight;
use bpf_check::{Spot, WayOut};
use bpf_insn::Code;
use bpf_streams::Tell;

/// Why no state goes on to an instruction without a label.
#[derive(Clone, Copy, PartialEq)]
pub enum Silence {
    /// The program's first slot has no label.
    Start,
    /// The instruction at the slot is refused.
    Refused(u32),
    /// The instruction at the slot doesn't go on at the next one.
    Ends(u32),
}

/// C11: no state reaches an instruction.
pub fn tell_silence<W: Tell>(out: &mut W, silence: Silence) {
    let (from, slot, rest) = match silence {
        Silence::Start => return out.say("no state goes on here: no label stands at slot 0"),
        Silence::Refused(slot) => ("behind the refusal at slot", slot, ""),
        Silence::Ends(slot) => ("from slot", slot, ", and no label stands here"),
    };
    write!(out, "no state goes on {from} {slot}{rest}");
}

/// C11: the last instruction can go on.
pub fn tell_end<W: Tell>(out: &mut W) {
    out.say("goes on past the program's end: the last instruction must be exit, goto or gotol");
}

/// C1: no label stands at a jump's target.
pub fn tell_missing_label<C: Code, W: Tell>(out: &mut W, sight: &Sight<'_, C>) {
    if let Some(Spot { slot: to, .. }) = sight.site.jump {
        write!(out, "jumps to slot {to}, where no label stands");
    }
}

/// C10: a callee's depth isn't below its caller's.
pub fn tell_depth<C: Code, W: Tell>(out: &mut W, sight: &Sight<'_, C>) {
    let (Some(callee), Some(caller)) = (sight.site.callee, sight.site.here.function) else {
        return;
    };
    let (first, depth, own) = (callee.function.first, callee.function.depth, caller.depth);
    write!(
        out,
        "calls the function at slot {first} of depth {depth} from depth {own}: a callee's depth must be below its caller's"
    );
}

/// A call that leads to no function.
fn tell_nowhere<C: Code, W: Tell>(out: &mut W, sight: &Sight<'_, C>) {
    let by = i64::from(sight.site.insn.distance().unwrap_or(0));
    let to = i64::from(sight.site.here.slot)
        .saturating_add(1)
        .saturating_add(by);
    write!(
        out,
        "calls slot {to}, where no function of the certificate begins"
    );
}

/// Where an instruction leads out of its function.
fn tell_out<C: Code, W: Tell>(out: &mut W, sight: &Sight<'_, C>, leads: &str, to: u32) {
    if let Some(function) = sight.site.here.function {
        let first = function.first;
        write!(
            out,
            "{leads} slot {to}, out of the function at slot {first}"
        );
    }
}

/// C12: a jump or the next instruction lies in another function, or a call leads to none.
pub fn tell_leaving<C: Code, W: Tell>(out: &mut W, sight: &Sight<'_, C>) {
    match sight.way_out {
        Some(WayOut::Call) => tell_nowhere(out, sight),
        Some(WayOut::Jump(to)) => tell_out(out, sight, "jumps to", to),
        Some(WayOut::Next(to)) => tell_out(out, sight, "goes on to", to),
        None => {}
    }
}
