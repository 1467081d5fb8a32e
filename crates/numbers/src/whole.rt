// Truncate, floor, ceiling: 70, 71, 72.
ghost use Rattle.std.specs.Prelude.{◌≡◌, ◌<◌, ◌^◌, negsuc};
ghost use Rattle.std.specs.Int.Signed.{mag};
ghost use Rattle.numbers.specs.Whole.{brought_to_zero, whole_at};

use crate::division::{Rounding, divide};
use crate::flags::{FLAG_46, Made};
use crate::number::Number;
use crate::signs::magnitude;

// The leftmost digits of indefinite and of machine zero.
const INDEFINITE_DIGIT: u64 = 7;

const MACHINE_ZERO_DIGIT: u64 = 8;

// Of exponent -k: the coefficient over 2^k, with exponent 0.
fn brought_to_zero(how: Rounding, n: Number) -> u64
    requires { (n.exponent ≡ negsuc (mag n.exponent)) × (mag n.exponent < 2 ^ 62) × (mag n.coefficient < 2 ^ 61) }
    ensures { result ≡ brought_to_zero 15 47 how n }
{
    let k = magnitude(n.exponent) + 1;
    let whole = Number {
        exponent: 0,
        coefficient: divide(how, n.coefficient, k),
    };
    whole.word()
}

// Truncate rounds toward zero, floor down, ceiling up.
pub fn whole(how: Rounding, word: u64) -> Made<u64>
    ensures { result ≡ whole_at 15 47 how word }
{
    let digit = word >> 60;
    let n = Number::from(word);
    let x = n.exponent;
    if digit == MACHINE_ZERO_DIGIT {
        Made { item: 0, flags: 0 }
    } else if x < 0 {
        Made {
            item: brought_to_zero(how, n),
            flags: 0,
        }
    } else if digit == INDEFINITE_DIGIT {
        Made {
            item: word,
            flags: FLAG_46,
        }
    } else {
        Made {
            item: word,
            flags: 0,
        }
    }
}
