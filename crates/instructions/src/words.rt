// Instruction words: read into parts, put together of parts, and refused under 5, 6 and 7.
ghost use Rattle.std.specs.Prelude.{◌≡◌, ◌+◌, ◌/◌, ◌%◌, ◌^◌, ◌≤◌};
ghost use Rattle.std.specs.Int.Bits.{bit_and, bit_or};
ghost use Rattle.instructions.specs.Words.{parts_of, joined, uncontrolled, not_zero, missing, refusal_number, decoded, reading, assembled};

use crate::operands::{code_in, g_bit};
use crate::table::{Row, find};

// The eight bytes of a word, from the left. A 32-bit instruction stands in the left half: R, S and T are g, x and a, and the others are zero.
#[derive(Clone, Copy)]
pub struct Parts {
    pub f: u8,
    pub g: u8,
    pub x: u8,
    pub a: u8,
    pub y: u8,
    pub b: u8,
    pub z: u8,
    pub c: u8,
}

// What is said of an instruction that is not done, by the numbers that a call says.
#[derive(Clone, Copy, PartialEq, Eq)]
pub enum Refusal {
    NotThere = 4, // the word at P is not wholly in memory
    NotListed = 5, // function not in the table
    NotZero = 6, // a bit that is to be zero isn't
    NoMeaning = 7, // designator 00, or half word 00 or 01, where that has no meaning
    Misaligned = 8, // a field or a taken target begins at no multiple of its unit
    Short = 9, // a vector source has fewer items than the result
    Outside = 10, // a field is not wholly in memory
    Shared = 11, // the result shares a bit with a field that is read
}

impl Refusal {
    pub fn number(self) -> u64
        ensures { result ≡ refusal_number self }
    {
        self as u64
    }
}

// The part of a word, a byte, that has so many bits to its right.
pub(crate) fn part(word: u64, right: u64) -> u8
    requires { right ≤ 56 }
    ensures { result ≡ word / 2 ^ right % 256 }
{
    ((word >> right) % 256) as u8
}

impl From<u64> for Parts {
    ghost from_gives = { λ word parts. parts ≡ parts_of word };

    // The parts of any word, listed or not.
    fn from(word: u64) -> Parts {
        let [f, g, x, a, y, b, z, c] = word.to_be_bytes();
        Parts {
            f,
            g,
            x,
            a,
            y,
            b,
            z,
            c,
        }
    }
}

impl From<Parts> for u64 {
    ghost from_gives = { λ parts word. word ≡ joined parts };

    // The parts put together, whatever they are.
    fn from(p: Parts) -> u64 {
        u64::from_be_bytes([p.f, p.g, p.x, p.a, p.y, p.b, p.z, p.c])
    }
}

// G bit 1 with Z 00.
fn uncontrolled(word: u64) -> bool
    ensures { result ≡ uncontrolled word }
{
    g_bit(word, 1) && part(word, 8) == 0
}

// Refusal 6.
#[tactic(auto, unfolding(crate::specs::Words::not_zero))]
fn not_zero(row: Row, word: u64) -> bool
    ensures { result ≡ not_zero row word }
{
    word & row.zero_bits() != 0 || (row.vector() && uncontrolled(word))
}

// 80 in the place of each byte of x that is not 00, all eight at once: 7F added to a byte's right seven bits reaches its left bit unless they are 0.
fn filled(x: u64) -> u64
    ensures { result ≡ bit_and (bit_or (bit_and x 0x7F7F_7F7F_7F7F_7F7F + 0x7F7F_7F7F_7F7F_7F7F) x) 0x8080_8080_8080_8080 }
{
    let sum = (x & 0x7F7F_7F7F_7F7F_7F7F) + 0x7F7F_7F7F_7F7F_7F7F;
    (sum | x) & 0x8080_8080_8080_8080
}

// Refusal 7: a byte of the word has none of the bits that its place has in `named`.
fn lacks(named: u64, word: u64) -> bool
    ensures { result ≡ missing named word }
{
    filled(word & named) != filled(named)
}

// The row of a listed word, or the first of 5, 6 and 7 that refuses the word.
#[tactic(auto, unfolding(crate::specs::Words::decoded))]
pub fn decode(word: u64) -> Result<Row, Refusal>
    ensures { result ≡ decoded word }
{
    let Some(row) = find(code_in(word)) else {
        return Err(Refusal::NotListed);
    };
    if not_zero(row, word) {
        return Err(Refusal::NotZero);
    }
    if lacks(row.named(), word) {
        return Err(Refusal::NoMeaning);
    }
    Ok(row)
}

// The parts of a listed word, or its refusal.
#[tactic(auto, unfolding(crate::specs::Words::reading))]
pub fn read(word: u64) -> Result<Parts, Refusal>
    ensures { result ≡ reading word }
{
    decode(word)?;
    Ok(Parts::from(word))
}

// The word of the parts, or the refusal that reading it would give.
#[tactic(auto, unfolding(crate::specs::Words::assembled))]
pub fn assemble(parts: Parts) -> Result<u64, Refusal>
    ensures { result ≡ assembled parts }
{
    let word = u64::from(parts);
    decode(word)?;
    Ok(word)
}
