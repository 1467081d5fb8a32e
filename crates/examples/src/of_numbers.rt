// Instructions on one word or two, without registers or memory.
use numbers::number::Number;
use numbers::{Rounding, contracts, shifts, whole, words};
use std::{fmt, io};

// The flags of a line: nothing where there are none.
#[derive(Drop)]
struct Flags(u64);

impl fmt::Display for Flags {
    fn fmt<W: fmt::Write>(&self, f: &mut fmt::Formatter<W>) -> fmt::Result {
        let Flags(flags) = *self;
        if flags == 0 {
            return Ok(());
        }
        write!(f, " flags {flags:06x}")
    }
}

// A line: the code, what it is given, the result in so many digits and the flags that it sets.
fn line(
    out: &impl Print,
    code: u8,
    word: u64,
    made: u64,
    width: usize,
    flags: u64,
) -> io::Result<()> {
    let flags = Flags(flags);
    println!(out; "{code:02x} {word:016x}: {made:0width$x}{flags}")
}

fn line_of_two(out: &impl Print, code: u8, r: u64, s: u64, t: u64) -> io::Result<()> {
    println!(out; "{code:02x} {r:016x} {s:016x}: {t:016x}")
}

fn contract(out: &impl Print, word: u64) -> io::Result<()> {
    for (code, rounded) in [(0x76, false), (0x77, true)] {
        let made = contracts::contract(word, rounded);
        line(out, code, word, made.item as u64, 8, made.flags)?;
    }
    Ok(())
}

// Examples 1 to 6, and both ends of each range of exponents.
pub fn contract_each(out: &impl Print) -> io::Result<()> {
    for word in [
        0x0000_0000_0100_0000,
        0x0000_FFFF_FFFF_FFFF,
        0x0000_0000_0080_0000,
        0x0000_FFFF_FF80_0000,
        0x0000_7FFF_FFFF_FFFF,
        0x0057_7FFF_FFFF_FFFF,
        0xFF77_7FFF_FFFF_FFFF,
        0xFF78_0000_0100_0000,
        0xFF78_8000_0000_0000,
        0x0000_8000_0000_0000,
        0x0057_8000_0000_0000,
        0x0058_0000_0000_0000,
        0x6FFF_0000_0000_0001,
        0x7000_0000_0000_0001,
        0x7FFF_FFFF_FFFF_FFFF,
        0x8000_0000_0000_0000,
        0x8FFF_7FFF_FFFF_FFFF,
    ] {
        contract(out, word)?;
    }
    Ok(())
}

fn to_whole(out: &impl Print, word: u64) -> io::Result<()> {
    for (code, how) in [
        (0x70, Rounding::Zero),
        (0x71, Rounding::Down),
        (0x72, Rounding::Up),
    ] {
        let made = whole::whole(how, word);
        line(out, code, word, made.item, 16, made.flags)?;
    }
    Ok(())
}

// Examples 7 and 8, both ends of the coefficient, and divisors up to 2^28672.
pub fn wholes(out: &impl Print) -> io::Result<()> {
    for word in [
        0xFFFF_FFFF_FFFF_FFFD,
        0xFFFF_0000_0000_0003,
        0x9000_FFFF_FFFF_FFFF,
        0x9000_7FFF_FFFF_FFFF,
        0xFFFF_8000_0000_0000,
        0xFFFF_7FFF_FFFF_FFFF,
        0xFFD1_8000_0000_0000,
        0xFFD0_8000_0000_0000,
        0xFFD0_7FFF_FFFF_FFFF,
        0xFFC1_8000_0000_0001,
        0x0000_8000_0000_0000,
        0x6FFF_0000_0000_0001,
        0x7000_0000_0000_0001,
        0x7FFF_FFFF_FFFF_FFFF,
        0x8000_0000_0000_0001,
        0x8FFF_FFFF_FFFF_FFFF,
    ] {
        to_whole(out, word)?;
    }
    Ok(())
}

// Example 9, and both ends of each range of counts. Only the right byte counts.
pub fn shift_each(out: &impl Print) -> io::Result<()> {
    for (word, count) in [
        (0x8000_0000_0000_0001, 0x01),
        (0x8000_0000_0000_0001, 0xFF),
        (0x8000_0000_0000_0001, 0x40),
        (0x8000_0000_0000_0001, 0x00),
        (0x8000_0000_0000_0001, 0x3F),
        (0x8000_0000_0000_0001, 0xC0),
        (0x8000_0000_0000_0001, 0xC1),
        (0x4000_0000_0000_0001, 0xC1),
        (0x7FFF_FFFF_FFFF_FFFF, 0xFF),
        (0x0123_4567_89AB_CDEF, 0xFFFF_FFFF_FFFF_FF08),
    ] {
        line_of_two(out, 0x8A, word, count, shifts::shift(word, count))?;
    }
    Ok(())
}

// Sums and differences that lose their carry, logic, and parts of words.
pub fn of_two_words(out: &impl Print) -> io::Result<()> {
    let r = 0xABCD_FFFF_FFFF_FFFF;
    let s = 0x1234_0000_0000_0001;
    line_of_two(out, 0x63, r, s, words::add(r, s))?;
    line_of_two(out, 0x67, s, r, words::subtract(s, r))?;
    for (code, t) in [
        (0x67, words::subtract(r, s)),
        (0x2C, words::exclusive_or(r, s)),
        (0x2D, words::and(r, s)),
        (0x2E, words::inclusive_or(r, s)),
        (0x7B, words::pack(r, s)),
    ] {
        line_of_two(out, code, r, s, t)?;
    }
    line(out, 0x7A, r, words::exponent(r), 16, 0)?;
    line(out, 0x7A, s, words::exponent(s), 16, 0)?;
    line(out, 0x7C, r, words::left16(r), 16, 0)
}

// Numbers taken apart and put together, at both widths: of a half word, sixteen more bits in each part.
pub fn numbers_taken_apart(out: &impl Print) -> io::Result<()> {
    let word = 0x8000_8000_0000_0001;
    line(out, 0x00, word, Number::from(word).word(), 16, 0)?;
    for half in [0x8080_0001u32, 0x7F7F_FFFF] {
        let number = Number::from(half);
        line(out, 0x00, half as u64, number.word(), 16, 0)?;
    }
    Ok(())
}
