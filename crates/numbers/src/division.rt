// A signed number divided by a power of two of any size, rounded toward zero, down and up: a division for each, a form that is not to change (decision 78).
ghost use Rattle.std.specs.Prelude.{◌≡◌, ℕ, ◌<◌, ◌/◌, ◌^◌, pos};
ghost use Rattle.std.specs.Int.Signed.{mag};
ghost use Rattle.numbers.specs.Quotient.{toward_zero, down, up, quotient};

use crate::signs::{flip, negate, power};

// How a quotient is rounded.
#[derive(Clone, Copy)]
pub enum Rounding {
    Zero,
    Down,
    Up,
}

// No more places than there are: further out a quotient of such a number is the same.
fn capped(k: u64) -> u64
    ensures { (result < 63) × ((n : ℕ) → n < 2 ^ 62 → n / 2 ^ result ≡ n / 2 ^ k) }
{
    if k < 62 { k } else { 62 }
}

// z / 2^k of a z that is not negative.
fn share(z: i64, k: u64) -> i64
    requires { (z ≡ pos (mag z)) × (mag z < 2 ^ 62) }
    ensures { result ≡ pos (mag z / 2 ^ k) }
{
    let d = power(capped(k));
    z / (d as i64)
}

// z / 2^k rounded down.
fn rounded_down(z: i64, k: u64) -> i64
    requires { mag z < 2 ^ 62 }
    ensures { result ≡ down z (2 ^ k) }
{
    if z < 0 {
        flip(share(flip(z), k))
    } else {
        share(z, k)
    }
}

// z / 2^k rounded up.
fn rounded_up(z: i64, k: u64) -> i64
    requires { mag z < 2 ^ 61 }
    ensures { result ≡ up z (2 ^ k) }
{
    negate(rounded_down(negate(z), k))
}

// z / 2^k toward zero.
fn toward_zero(z: i64, k: u64) -> i64
    requires { mag z < 2 ^ 61 }
    ensures { result ≡ toward_zero z (2 ^ k) }
{
    if z < 0 {
        rounded_up(z, k)
    } else {
        rounded_down(z, k)
    }
}

// z / 2^k, rounded as asked.
pub fn divide(how: Rounding, z: i64, k: u64) -> i64
    requires { mag z < 2 ^ 61 }
    ensures { result ≡ quotient how z (2 ^ k) }
{
    match how {
        Rounding::Zero => toward_zero(z, k),
        Rounding::Down => rounded_down(z, k),
        Rounding::Up => rounded_up(z, k),
    }
}
