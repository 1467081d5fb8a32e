// Contract and rounded contract of a 64-bit number to a 32-bit one: 76, 77.
ghost use Rattle.std.specs.Prelude.{◌≡◌, true, false, ◌<◌, ◌≤◌, ◌^◌};
ghost use Rattle.std.specs.Int.Signed.{mag};
ghost use Rattle.numbers.specs.Contract.{addend, places, narrowed, contract_of};

use crate::division::{Rounding, divide};
use crate::flags::{FLAG_42, FLAG_43, FLAG_46, Made};
use crate::number::Number;
use crate::signs::sum;

// The result words.
const INDEFINITE: u32 = 0x7000_0000;

const MACHINE_ZERO: u32 = 0x8000_0000;

// From this exponent on the result is indefinite.
const TOO_LARGE: i64 = 0x58;

// What is added first.
fn addend(rounded: bool) -> i64
    ensures { result ≡ addend rounded }
{
    if rounded { 0x80_0000 } else { 0 }
}

// How many places the sum s is moved.
fn places(s: i64) -> u64
    ensures { (result ≡ places s) × (24 ≤ result) × (result ≤ 25) }
{
    if 0x8000_0000_0000 <= s { 25 } else { 24 }
}

// Exponent x + g, coefficient s / 2^g.
fn narrow(x: i64, s: i64, g: u64) -> Made<u32>
    requires { (g ≤ 25) × (mag x < 2 ^ 61) × (mag s < 2 ^ 61) }
    ensures { result ≡ narrowed x s g }
{
    let y = sum(x, g as i64);
    if 0x70 <= y {
        Made {
            item: INDEFINITE,
            flags: FLAG_42 | FLAG_46,
        }
    } else {
        let n = Number {
            exponent: y,
            coefficient: divide(Rounding::Down, s, g),
        };
        Made {
            item: n.half_word(),
            flags: 0,
        }
    }
}

// By the exponent's range, which rounding does not move.
pub fn contract(word: u64, rounded: bool) -> Made<u32>
    ensures { result ≡ contract_of rounded word }
{
    let n = Number::from(word);
    let x = n.exponent;
    if 0x7000 <= x {
        Made {
            item: INDEFINITE,
            flags: FLAG_46,
        }
    } else if TOO_LARGE <= x {
        Made {
            item: INDEFINITE,
            flags: FLAG_42 | FLAG_46,
        }
    } else if -0x88 <= x {
        let s = sum(n.coefficient, addend(rounded));
        narrow(x, s, places(s))
    } else {
        Made {
            item: MACHINE_ZERO,
            flags: FLAG_43,
        }
    }
}
