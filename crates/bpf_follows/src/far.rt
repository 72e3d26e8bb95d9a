//! Numbers near to 2^63, for which the address of the context stands.

ghost use Rattle.std.specs.Prelude.{◌≡◌};
ghost use Rattle.bpf_follows.specs.NotesText.{is_far, toggled};

/// A quarter of the addresses.
const QUARTER: u64 = 1 << 62;

/// Half of the addresses.
pub const HALF: u64 = 2 * QUARTER;

/// Whether a number is nearer to 2^63 than to 0 and 2^64.
pub fn is_far(number: u64) -> bool
    ensures { result ≡ is_far number }
{
    (QUARTER..3 * QUARTER).contains(&number)
}

/// The number with 2^63 more or less.
pub fn toggled(number: u64) -> u64
    ensures { result ≡ toggled number }
{
    if number < HALF {
        number + HALF
    } else {
        number - HALF
    }
}
