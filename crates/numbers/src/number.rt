// A number taken into its exponent and coefficient, and put together: 16 and 48 bits in a word, 8 and 24 in a half word.
ghost use Rattle.std.specs.Prelude.{◌≡◌};
ghost use Rattle.numbers.specs.Number.{split_at, joined_at};

use crate::widths::{HALF_WORD, WORD};

// Two's complement both. Of a part that is out of range the rightmost bits are put together.
#[derive(Clone, Copy)]
pub struct Number {
    pub exponent: i64,
    pub coefficient: i64,
}

// The parts of a 64-bit number.
impl From<u64> for Number {
    ghost from_gives = { λ word n. n ≡ split_at 15 47 word };

    fn from(word: u64) -> Number {
        WORD.split(word)
    }
}

// The parts of a 32-bit number.
impl From<u32> for Number {
    ghost from_gives = { λ half n. n ≡ split_at 7 23 half };

    fn from(half: u32) -> Number {
        HALF_WORD.split(half as u64)
    }
}

impl Number {
    // The 64-bit number of these parts. No `From`, which would say that no part is cut.
    pub fn word(self) -> u64
        ensures { result ≡ joined_at 15 47 self }
    {
        WORD.join(self)
    }

    // The 32-bit number of these parts.
    pub fn half_word(self) -> u32
        ensures { result ≡ joined_at 7 23 self }
    {
        HALF_WORD.join(self) as u32
    }
}
