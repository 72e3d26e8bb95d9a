//! Accesses to bytes that are the same in both programs.

ghost use Rattle.std.specs.Prelude.{◌≡◌, ◌||◌, not};
ghost use Rattle.bpf_kept.specs.Terms.{is_noted};
ghost use Rattle.bpf_kept.specs.Slots.{misses};
ghost use Rattle.bpf_kept.specs.Rules.{is_common};
ghost use Rattle.bpf_kept.specs.Knowns.{known_of};

use crate::known::KnownHere;
use crate::notes::SLOTS;
use crate::slots::{Displaced, is_noted, misses};

/// Whether an access doesn't go to a slot in which the programs may have something else.
fn spares(known: &KnownHere<'_>, count: u8, old: Displaced, new: Displaced, n: u8) -> bool
    ensures { result ≡ (not (is_noted known.now.apart.now n) || misses known.now.left count old.base old.off new.base new.off n) }
{
    !is_noted(known.apart, n) || misses(known.left, count, old, new, n)
}

/// Whether it goes to no such slot.
pub fn is_common(known: &KnownHere<'_>, count: u8, old: Displaced, new: Displaced) -> bool
    ensures { result ≡ is_common (known_of known.now) count old.base old.off new.base new.off }
{
    for n in 0..SLOTS as u8 {
        if !spares(known, count, old, new, n) {
            return false;
        }
    }
    true
}
