//! Filters converted.

ghost use Rattle.std.specs.Prelude.{◌≤◌, IfOk, IfErr};
ghost use Rattle.bpf_insn.specs.Limits.{max_context};
ghost use Rattle.bpf_classic.specs.Template.{head};
ghost use Rattle.bpf_host_calls.specs.Converted.{IsConvertedAs, IsNotConverted};
ghost use Rattle.bpf_host_calls.specs.ToldAdvice.{IsTold};

use crate::answers::refusal_of;
use crate::outputs::{ImageWithText, image_of, text_of};
use crate::refusals::Unmade;
use crate::unconverted::of_conversion;
use bpf_classic::{TextFault, Wanted, raws_in};
use bpf_conversion::converted;
use bpf_insn::Order;
use std::alloc::Global;

/// The bytes of a filter, and the order of its numbers.
#[derive(Clone, Copy)]
pub(crate) struct Given<'a> {
    pub(crate) filter: &'a [u8],
    pub(crate) order: Order,
}

/// What was converted, as C sees it.
#[repr(C)]
#[derive(Clone, Copy)]
pub struct BpfConverted {
    /// How many bytes the image has.
    pub image_len: usize,
    /// How many bytes the certificate's text has.
    pub certificate_len: usize,
    /// The greatest number of instructions that a run takes.
    pub bound: u32,
}

/// An image and its certificate, and what is told of them.
#[derive(Drop)]
pub(crate) struct MadeOfFilter {
    pub(crate) both: ImageWithText,
    pub(crate) told: BpfConverted,
}

/// The image and the certificate of what a filter becomes.
pub(crate) fn conversion(
    alloc: Global,
    given: Given<'_>,
    wanted: Wanted,
) -> Result<MadeOfFilter, Unmade>
    requires short { wanted.length ≤ max_context }
    requires room { head wanted.form ≤ wanted.length }
    ensures ok { IfOk result (λ made. IsConvertedAs given.entry.order given.entry.filter.now wanted made.told made.both.image.items made.both.text.items) }
    ensures err { IfErr result (IsTold (IsNotConverted given.entry.order given.entry.filter.now wanted.form)) }
{
    let raws = match raws_in(alloc, given.filter, given.order) {
        Ok(raws) => raws,
        Err(TextFault::Part { at }) => {
            return Err(Unmade::Refused(refusal_of(&TextFault::Part { at })));
        }
        Err(TextFault::Row { .. } | TextFault::Count { .. } | TextFault::Memory) => {
            return Err(Unmade::Memory);
        }
    };
    let made = match converted(alloc, &raws, wanted) {
        Ok(made) => made,
        Err(error) => return Err(of_conversion(error)),
    };
    let Some(image) = image_of(alloc, made.converted.program()) else {
        return Err(Unmade::Memory);
    };
    let Some(text) = text_of(alloc, &made.certificate) else {
        return Err(Unmade::Memory);
    };
    let told = BpfConverted {
        image_len: image.len(),
        certificate_len: text.len(),
        bound: made.certificate.steps(),
    };
    Ok(MadeOfFilter {
        both: ImageWithText { image, text },
        told,
    })
}
