//! Words of 64 bits, and sums and products that don't wrap.

ghost use Rattle.std.specs.Prelude.{◌≡◌, ◌-◌, ◌*◌, ◌^◌, ◌<◌, pos, ◌+ℤ◌, ◌-ℤ◌, ◌*ℤ◌};
ghost use Rattle.bpf_insn.specs.Arithmetic.{swap_size};
ghost use Rattle.bpf_num.specs.Word.{bit_length, truncated};

use bpf_insn::EndBits;

// The low bits, and zero above.
pub fn truncated(size: EndBits, number: u64) -> u64
    ensures { result ≡ truncated (8 * swap_size size) number }
{
    match size {
        EndBits::B16 => number % (1 << 16),
        EndBits::B32 => number % (1 << 32),
        EndBits::B64 => number,
    }
}

// The sum, the difference, the product and the multiple by a power of two, which don't wrap in 128 bits.
pub fn wide_sum(a: i64, b: i64) -> i128
    ensures { result ≡ a +ℤ b }
{
    i128::from(a) + i128::from(b)
}

pub fn wide_difference(a: i64, b: i64) -> i128
    ensures { result ≡ a -ℤ b }
{
    i128::from(a) - i128::from(b)
}

pub fn wide_product(a: i64, b: i64) -> i128
    ensures { result ≡ a *ℤ b }
{
    i128::from(a) * i128::from(b)
}

pub fn wide_multiple(a: i64, amount: u32) -> i128
    requires { amount < 64 }
    ensures { result ≡ a *ℤ pos (2 ^ amount) }
{
    i128::from(a) * (1 << amount)
}

// Ones in the place of all bits of a number and of the bits between.
pub fn ones_up_to(number: u64) -> u64
    ensures { result ≡ 2 ^ bit_length number - 1 }
{
    if number == 0 {
        0
    } else {
        u64::MAX >> number.leading_zeros()
    }
}
