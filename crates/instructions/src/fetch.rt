// The instruction word at P.
ghost use Rattle.std.specs.Prelude.{◌≡◌, ◌≤◌, ◌<◌, length};
ghost use Rattle.fields.specs.Bytes.{num};
ghost use Rattle.instructions.specs.Fetch.{long_in, length_of, there, two_halves_at, fetch_of, unfetched_at};

use crate::operands::code_in;
use crate::table;
use fields::bytes::{HALF_WORD, WORD};
use fields::memory;
use fields::units::{BitAddress, BitCount, ByteCount, ORIGIN};

// The word is one of 64 bits.
#[tactic(auto, unfolding(crate::specs::Fetch::long_in))]
pub fn is_long(word: u64) -> bool
    ensures { result ≡ long_in word }
{
    if word < 0x8000_0000_0000_0000 { // no code below 80 has 64 bits
        return false;
    }
    match table::find(code_in(word)) {
        None => false,
        Some(row) => row.long(),
    }
}

// How far P moves past the word.
pub fn length_of(word: u64) -> BitCount
    ensures { result.0 ≡ length_of word }
{
    if is_long(word) {
        return BitCount(64);
    }
    BitCount(32)
}

// So many half words at P lie in the lent bytes, and P is a multiple of 32.
fn there(p: BitAddress, half_words: u64, lent: ByteCount) -> bool
    requires { (0 < half_words) × (half_words ≤ 2) }
    ensures { result ≡ there p.0 half_words lent.0 }
{
    if p.0 % 32 != 0 {
        return false;
    }
    if p.0 < ORIGIN {
        return false;
    }
    (p.0 - ORIGIN) / 8 + half_words * 4 <= lent.0
}

// The 64 bits at P, with zeros for those that are not in memory.
#[tactic(auto, unfolding(crate::specs::Fetch::two_halves_at))]
fn word_at(memory: &[u8], p: BitAddress) -> u64
    ensures { result ≡ two_halves_at (length memory.now) (num memory.now) p.0 }
{
    let lent = ByteCount(memory.len() as u64);
    if there(p, 2, lent) {
        return memory::read::<WORD>(memory, p);
    }
    if there(p, 1, lent) {
        return memory::read::<HALF_WORD>(memory, p) << 32;
    }
    0
}

// A 32-bit word stands in the left half, with zeros right.
#[tactic(auto, unfolding(crate::specs::Fetch::fetch_of))]
pub fn fetch(memory: &[u8], p: BitAddress) -> u64
    ensures { result ≡ fetch_of (length memory.now) (num memory.now) p.0 }
{
    let word = word_at(memory, p);
    if is_long(word) {
        return word;
    }
    (word >> 32) << 32
}

// Refusal 4: the word at P is not wholly in memory.
pub fn unfetched(p: BitAddress, long: bool, lent: ByteCount) -> bool
    ensures { result ≡ unfetched_at p.0 long lent.0 }
{
    if long {
        return !there(p, 2, lent);
    }
    !there(p, 1, lent)
}
