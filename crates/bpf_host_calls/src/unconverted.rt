//! Why no program is made of a filter, as C sees it.

ghost use Rattle.bpf_host_calls.specs.ToldConverted.{TellsConversion};

use crate::answers::told_refusal;
use crate::refusals::Unmade;
use bpf_classic::FilterRefusal;
use bpf_refusals::{FILTER_MEMORY, Tells};

/// Why no program is made of instructions.
pub(crate) fn of_conversion(error: FilterRefusal) -> Unmade
    ensures { TellsConversion error result }
{
    let told = error.told();
    if told.number == FILTER_MEMORY {
        return Unmade::Memory;
    }
    Unmade::Refused(told_refusal(told))
}
