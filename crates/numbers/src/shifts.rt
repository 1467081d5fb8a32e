// Rotation and right shift with sign of one word: code 8A. By shifts and masks, a form that is not to change (decision 78). A word is complemented by a
// subtraction from all ones (decision 71).
ghost use Rattle.std.specs.Prelude.{◌≡◌, ◌<◌};
ghost use Rattle.numbers.specs.Shift.{rotated, moved_right, shift_of};

use crate::signs::low;

// Left end-around.
fn rotate(word: u64, k: u64) -> u64
    requires { k < 64 }
    ensures { result ≡ rotated word k }
{
    if k == 0 {
        word
    } else {
        (word << k) | (word >> (64 - k))
    }
}

// All ones: what a word is complemented against.
const ONES: u64 = 0xFFFF_FFFF_FFFF_FFFF;

// Right with sign: what comes in from the left is zeros, or for a word whose sign is one, zeros of its complement.
fn move_right(word: u64, k: u64) -> u64
    requires { k < 64 }
    ensures { result ≡ moved_right word k }
{
    if word < 0x8000_0000_0000_0000 {
        word >> k
    } else {
        ONES - ((ONES - word) >> k)
    }
}

// By the right byte of the count.
pub fn shift(word: u64, count: u64) -> u64
    ensures { result ≡ shift_of word count }
{
    let by = low(count, 8);
    if by < 0x40 {
        rotate(word, by)
    } else if by < 0xC1 {
        word
    } else {
        move_right(word, 0x100 - by)
    }
}
