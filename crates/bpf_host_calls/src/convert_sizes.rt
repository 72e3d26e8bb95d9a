//! How much memory does for the certificate of a filter.

ghost use Rattle.std.specs.Prelude.{◌≡◌};
ghost use Rattle.bpf_host_calls.specs.ConvertSizes.{convert_size};

use bpf_classic::MAX_FILTER;

/// A header, a function and the last line, and the labels of the entry and of the exit that answers 0.
const ENDS: usize = 1024;

/// The labels of an instruction: three at most, with a line for each register and cell.
const LABELS: usize = 3 * 192;

/// How many bytes do for the certificate that `convert` makes for a filter of so many instructions.
pub fn convert_size(count: usize) -> usize
    ensures { result ≡ convert_size count }
{
    ENDS + LABELS * count.min(MAX_FILTER)
}
