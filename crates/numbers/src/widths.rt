// Exponent and coefficient over their widths.
ghost use Rattle.std.specs.Prelude.{◌≡◌, ◌<◌};
ghost use Rattle.numbers.specs.Number.{coefficient_at, exponent_at, split_at, joined_at};

use crate::number::Number;
use crate::signs::{bits, low, signed};

// A number has e + 1 bits of exponent and, to their right, h + 1 of coefficient.
#[derive(Clone, Copy)]
pub(crate) struct Widths {
    e: u64,
    h: u64,
    ghost few: { (e < 16) × (h < 48) },
}

// Of a word.
pub(crate) const WORD: Widths = Widths { e: 15, h: 47 };

// Of a half word.
pub(crate) const HALF_WORD: Widths = Widths { e: 7, h: 23 };

impl Widths {
    // The low h + 1 bits.
    fn coefficient(self, word: u64) -> i64
        ensures { result ≡ coefficient_at self.h word }
    {
        signed(low(word, self.h + 1), self.h)
    }

    // The e + 1 bits left of them.
    fn exponent(self, word: u64) -> i64
        ensures { result ≡ exponent_at self.e self.h word }
    {
        signed(low(word >> (self.h + 1), self.e + 1), self.e)
    }

    // A number taken apart.
    pub(crate) fn split(self, word: u64) -> Number
        ensures { result ≡ split_at self.e self.h word }
    {
        Number {
            exponent: self.exponent(word),
            coefficient: self.coefficient(word),
        }
    }

    // A number put together.
    pub(crate) fn join(self, n: Number) -> u64
        ensures { result ≡ joined_at self.e self.h n }
    {
        (bits(n.exponent, self.e) << (self.h + 1)) | bits(n.coefficient, self.h)
    }
}
