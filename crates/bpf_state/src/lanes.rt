//! Byte masks, all at once.

ghost use Rattle.std.specs.Prelude.{◌≡◌, ◌↔◌, ◌-◌, ◌<◌, ℕ, IsTrue, get_or, bit_and};
ghost use Rattle.std.specs.Simd.Lanes.{zip2};
ghost use Rattle.bpf_state.specs.Covers.{Covers};

use std::simd::prelude::*;

/// The bits of `want` that `have` lacks.
#[inline(always)]
fn missing(have: u8x64, want: u8x64) -> u8x64
    ensures { result ≡ zip2 (λ w h. bit_and w (255 - h)) want have }
{
    want & !have
}

#[inline(always)]
fn is_zero(block: u8x64) -> bool
    ensures { IsTrue result ↔ ((i : ℕ) → i < 64 → get_or block i 0 ≡ 0) }
{
    block.simd_ne(u8x64::splat(0)).to_bitmask() == 0
}

/// Whether each bit of the wanted masks is one of the masks that there are: `want[i] & !have[i]` is 0 for all i.
pub fn covers(have: &[u8; 64], want: &[u8; 64]) -> bool
    ensures { IsTrue result ↔ Covers have.now want.now }
{
    is_zero(missing(u8x64::from_array(*have), u8x64::from_array(*want)))
}

/// Whether no byte of the masks is marked.
pub(crate) fn are_zero(masks: &[u8; 64]) -> bool
    ensures { IsTrue result ↔ ((i : ℕ) → i < 64 → get_or masks.now i 0 ≡ 0) }
{
    is_zero(u8x64::from_array(*masks))
}
