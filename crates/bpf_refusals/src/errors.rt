//! What the errors of the crates below tell.

use crate::letter::Letter;
use crate::told::{At, FILTER_MEMORY, Tells, Told};
use bpf_captures::{CaptureError, CaptureRefusal};
use bpf_cert::CertError;
use bpf_check::Refusal as CheckRefusal;
use bpf_classic::{FilterRefusal, TextFault};
use bpf_follows::NotesError;
use bpf_infer_base::{HardenError, InferError};
use bpf_insn::DecodeError;
use bpf_kept::Mismatch;
use bpf_semantics::Reason;
use bpf_text::TextError;

/// The number of the refusal of what spells no instructions of a filter.
const NO_INSTRUCTIONS: u8 = 8;

/// A1 to A7.
impl Tells for TextError {
    ghost use Rattle.bpf_refusals.specs.Told.{told_text};

    ghost told_of = { told_text };

    fn told(&self) -> Told {
        let at = match *self {
            TextError::Memory => At::Nowhere,
            _ => At::Line(self.line() as u64),
        };
        let condition = match *self {
            TextError::Program { error, .. } => Some(u32::from(error.number())),
            _ => None,
        };
        Told {
            condition,
            ..Told::new(Letter::Text, self.number(), at)
        }
    }
}

/// B1 to B7, B9, B10: instructions are no filter, or no program is made of one.
impl Tells for FilterRefusal {
    ghost use Rattle.bpf_refusals.specs.Told.{told_filter};

    ghost told_of = { told_filter };

    fn told(&self) -> Told {
        let at = match *self {
            FilterRefusal::Instruction { at, .. } => At::Instruction(u64::from(at)),
            FilterRefusal::Length | FilterRefusal::Memory | FilterRefusal::Unshown => At::Nowhere,
        };
        Told::new(Letter::Classic, self.number(), at)
    }
}

/// B8, B9: a text or bytes spell no instructions.
impl Tells for TextFault {
    ghost use Rattle.bpf_refusals.specs.Told.{told_spelling};

    ghost told_of = { told_spelling };

    fn told(&self) -> Told {
        let (number, at) = match *self {
            TextFault::Row { line } | TextFault::Count { line, .. } => {
                (NO_INSTRUCTIONS, At::Line(line as u64))
            }
            TextFault::Part { at } => (NO_INSTRUCTIONS, At::Instruction(at as u64)),
            TextFault::Memory => (FILTER_MEMORY, At::Nowhere),
        };
        Told::new(Letter::Classic, number, at)
    }
}

/// C1 to C13.
impl Tells for CheckRefusal {
    ghost use Rattle.bpf_refusals.specs.Told.{told_check};

    ghost told_of = { told_check };

    fn told(&self) -> Told {
        Told::new(Letter::Check, self.number(), At::Slot(self.slot()))
    }
}

/// E1 to E10.
impl Tells for DecodeError {
    ghost use Rattle.bpf_refusals.specs.Told.{told_image};

    ghost told_of = { told_image };

    fn told(&self) -> Told {
        let at = match *self {
            DecodeError::Length | DecodeError::Memory => At::Nowhere,
            _ => At::Slot(self.slot()),
        };
        Told::new(Letter::Image, self.number(), at)
    }
}

/// F1 to F9; whoever ran it knows the slot.
impl Tells for Reason {
    ghost use Rattle.bpf_refusals.specs.Told.{told_fault};

    ghost told_of = { told_fault };

    fn told(&self) -> Told {
        Told::new(Letter::Fault, self.number(), At::Nowhere)
    }
}

/// H1 to H12.
impl Tells for HardenError {
    ghost use Rattle.bpf_refusals.specs.Told.{told_hardening};

    ghost told_of = { told_hardening };

    fn told(&self) -> Told {
        let at = match *self {
            HardenError::ShortBlock | HardenError::Memory => At::Nowhere,
            _ => At::Slot(self.slot()),
        };
        let condition = match *self {
            HardenError::Fault { condition, .. } => Some(u32::from(condition.number())),
            _ => None,
        };
        Told {
            condition,
            ..Told::new(Letter::Hardening, self.number(), at)
        }
    }
}

/// I1 to I5.
impl Tells for InferError {
    ghost use Rattle.bpf_refusals.specs.Told.{told_inference};

    ghost told_of = { told_inference };

    fn told(&self) -> Told {
        let at = match *self {
            InferError::Memory => At::Nowhere,
            _ => At::Slot(self.slot()),
        };
        let condition = match *self {
            InferError::Fault { condition, .. } => Some(u32::from(condition.number())),
            _ => None,
        };
        Told {
            condition,
            ..Told::new(Letter::Inference, self.number(), at)
        }
    }
}

/// K1 to K5.
impl Tells for CertError {
    ghost use Rattle.bpf_refusals.specs.Told.{told_certificate};

    ghost told_of = { told_certificate };

    fn told(&self) -> Told {
        let at = match *self {
            CertError::Memory => At::Nowhere,
            _ => At::Line(self.line() as u64),
        };
        Told::new(Letter::Certificate, self.number(), at)
    }
}

/// M1 to M10.
impl Tells for Mismatch {
    ghost use Rattle.bpf_refusals.specs.Told.{told_mismatch};

    ghost told_of = { told_mismatch };

    fn told(&self) -> Told {
        Told::new(Letter::Mismatch, self.number(), At::Slot(self.slot()))
    }
}

/// N1 and N2.
impl Tells for NotesError {
    ghost use Rattle.bpf_refusals.specs.Told.{told_notes};

    ghost told_of = { told_notes };

    fn told(&self) -> Told {
        let at = match *self {
            NotesError::Form { line } => At::Line(line as u64),
            NotesError::Memory => At::Nowhere,
        };
        Told::new(Letter::Notes, self.number(), at)
    }
}

/// P1 to P5.
impl Tells for CaptureRefusal {
    ghost use Rattle.bpf_refusals.specs.Told.{told_capture};

    ghost told_of = { told_capture };

    fn told(&self) -> Told {
        let at = match self.error {
            CaptureError::ShortRecord => At::Packet {
                packet: self.packet,
                byte: self.byte,
            },
            _ => At::Nowhere,
        };
        Told::new(Letter::Capture, self.error.number(), at)
    }
}
