//! Accesses out of bounds, of bytes that aren't initialised, and of what may not be written.

use crate::known::{Name, Offset, Pointed, known_register};
use crate::listing::Lengths;
use crate::sight::Sight;
use crate::words::kinds::tell_held;
use crate::words::origins::{tell_operand_tested, tell_sum_tested};
use crate::words::register;
use bpf_check::Index;
use bpf_insn::{Access, Code};
use bpf_state::{FARTHEST, Place, Reach, far_pointer, unknown_bytes};
use bpf_streams::{Count, Tell};
use std::fmt;

/// What an access does.
fn verb(access: Access) -> &'static str {
    match (access.reads, access.writes) {
        (true, true) => "changes",
        (false, true) => "writes",
        _ => "reads",
    }
}

/// What an access does, as `reads 2 bytes at r1 + 15`.
#[derive(Clone, Copy)]
struct Touch(Access);

impl fmt::Display for Touch {
    fn fmt<W: fmt::Write>(&self, f: &mut fmt::Formatter<W>) -> fmt::Result {
        let bytes = Count(u32::from(self.0.size.bytes()), "byte");
        let verb = verb(self.0);
        let (name, off) = (register(self.0.base), Offset(i64::from(self.0.off)));
        write!(f, "{verb} {bytes} at {name} {off}")
    }
}

/// `: only the first 38 bytes can be read`, where contexts have several lengths.
fn tell_readable<W: Tell>(out: &mut W, certificate: &Index) {
    let least = certificate.least();
    if least == certificate.most() {
        return;
    }
    match least {
        0 => out.say(": no byte can be read, as a context may have none"),
        1 => out.say(": only the first byte can be read"),
        _ => write!(out, ": only the first {least} bytes can be read"),
    }
    out.say("; comparing r2 doesn't change that");
}

/// `: `, and the byte that lies outside of the context or the frame.
fn tell_outside<W: Tell>(out: &mut W, certificate: &Index, reach: Reach) {
    let Some(byte) = reach.outside(certificate.least()) else {
        return;
    };
    write!(out, ": byte {byte}");
    if reach.in_frame() {
        out.say(" of a frame from -512 to -1");
    } else if byte < 0 {
        out.say(", in front of the context");
    } else {
        let lengths = Lengths::of(certificate);
        write!(out, " of a context of {lengths}");
        tell_readable(out, certificate);
    }
}

/// C5 of arithmetic: the pointer that would come out, and what the operands hold.
fn tell_far<C: Code, W: Tell>(out: &mut W, sight: &Sight<'_, C>) {
    let Some(made) = far_pointer(&sight.site.insn, &sight.before) else {
        return;
    };
    let far = Pointed(made);
    write!(
        out,
        "the pointer may leave its bounds, -{FARTHEST} to {FARTHEST}: it would be {far}; "
    );
    tell_held(out, &sight.before, sight.site.insn.registers_read());
    tell_operand_tested(out, sight);
}

/// C5: an access may leave the context or the frame, or a pointer its bounds.
pub fn tell_bounds<C: Code, W: Tell>(out: &mut W, sight: &Sight<'_, C>) {
    let Some(access) = sight.site.insn.access() else {
        return tell_far(out, sight);
    };
    let held = known_register(sight.before.reg(access.base));
    let (touch, name) = (Touch(access), register(access.base));
    write!(out, "{touch}, {name} is {held}");
    if let Some(reach) = Reach::of_access(access, &sight.before) {
        tell_outside(out, sight.site.certificate, reach);
    }
    tell_sum_tested(out, sight, access.base);
}

/// C6: a stack byte that may be read isn't known to be initialised.
pub fn tell_unknown_bytes<C: Code, W: Tell>(out: &mut W, sight: &Sight<'_, C>) {
    let insn = &sight.site.insn;
    let (Some(access), Some(unknown)) = (insn.access(), unknown_bytes(insn, &sight.before)) else {
        return;
    };
    let (touch, name) = (Touch(access), Name(Place::Slot(unknown.slot)));
    match unknown.known {
        0 => write!(out, "{touch}: no byte of {name} is known to be initialised"),
        known => write!(
            out,
            "{touch}: of {name} only the bytes b{known} are known to be initialised"
        ),
    }
}

/// C7: the context or r10 is written.
pub fn tell_protected<C: Code, W: Tell>(out: &mut W, sight: &Sight<'_, C>) {
    match sight.site.insn.access() {
        Some(access) if access.writes => {
            let held = known_register(sight.before.reg(access.base));
            let (name, touch) = (register(access.base), Touch(access));
            write!(
                out,
                "{touch}, {name} is {held}: the context may only be read"
            );
        }
        _ => out.say("writes r10, which stays at the frame's end"),
    }
}
