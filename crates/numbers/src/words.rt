// Sums, differences, parts and logic of words: 2C to 2E, 63, 67, 7A, 7B, 7C.
ghost use Rattle.std.specs.Prelude.{◌≡◌, ◌<◌, ◌^◌};
ghost use Rattle.std.specs.Int.Bits.{bit_and, bit_or, bit_xor};
ghost use Rattle.numbers.specs.Words.{left16_with, sum_of, difference_of, exponent_word, packed_of, left16_of};

use crate::number::Number;
use crate::signs::{bits, low};

// 2C.
pub fn exclusive_or(r: u64, s: u64) -> u64
    ensures { result ≡ bit_xor r s }
{
    r ^ s
}

// 2D.
pub fn and(r: u64, s: u64) -> u64
    ensures { result ≡ bit_and r s }
{
    r & s
}

// 2E.
pub fn inclusive_or(r: u64, s: u64) -> u64
    ensures { result ≡ bit_or r s }
{
    r | s
}

// The left 16 of r beside the low 48 n.
fn left16_with(r: u64, n: u64) -> u64
    requires { n < 2 ^ 48 }
    ensures { result ≡ left16_with r n }
{
    ((r >> 48) << 48) | n
}

// 63.
pub fn add(r: u64, s: u64) -> u64
    ensures { result ≡ sum_of r s }
{
    left16_with(r, low(low(r, 48) + low(s, 48), 48))
}

// 67.
pub fn subtract(r: u64, s: u64) -> u64
    ensures { result ≡ difference_of r s }
{
    left16_with(r, low(low(r, 48) + (0x1_0000_0000_0000 - low(s, 48)), 48))
}

// 7A.
pub fn exponent(r: u64) -> u64
    ensures { result ≡ exponent_word r }
{
    let n = Number::from(r);
    bits(n.exponent, 47)
}

// 7B.
pub fn pack(r: u64, s: u64) -> u64
    ensures { result ≡ packed_of r s }
{
    (low(r, 16) << 48) | low(s, 48)
}

// 7C.
pub fn left16(r: u64) -> u64
    ensures { result ≡ left16_of r }
{
    r >> 48
}
