// Words read into parts and parts put together, for every listed code, and what 5, 6 and 7 refuse: both ways the same.
use instructions::words;
use instructions::words::{Parts, Refusal};
use std::{fmt, io};

// What a word meets: reading it and putting its bytes together say the same of it, or two things.
#[derive(Clone, Copy, PartialEq, Eq)]
enum Met {
    Listed,
    Refused(Refusal),
    TwoThings,
}

impl fmt::Display for Met {
    fn fmt<W: fmt::Write>(&self, f: &mut fmt::Formatter<W>) -> fmt::Result {
        match *self {
            Met::Listed => write!(f, "0"),
            Met::Refused(refusal) => write!(f, "{}", refusal.number()),
            Met::TwoThings => write!(f, "99"),
        }
    }
}

fn both_ways(word: u64) -> Met {
    match (words::read(word), words::assemble(Parts::from(word))) {
        (Ok(_), Ok(w)) if w == word => Met::Listed,
        (Err(read), Err(assembled)) if read == assembled => Met::Refused(read),
        _ => Met::TwoThings,
    }
}

// The bits, but for the code's, that make the word meet this when they are turned.
fn turned(word: u64, met: Met) -> u64 {
    let mut bits = 0;
    for k in 0..56u64 {
        if both_ways(word ^ (1 << k)) == met {
            bits |= 1 << k;
        }
    }
    bits
}

// With 00 for G, X, A, Y, B, Z and C in turn, or for R, S, T and nothing.
fn without_each(out: &impl Print, word: u64) -> io::Result<()> {
    for right in [48, 40, 32, 24, 16, 8, 0] {
        print!(out; " {}", both_ways(word & !(0xFF << right)))?;
    }
    println!(out)
}

fn parts(out: &impl Print, p: Parts) -> io::Result<()> {
    print!(out; "parts")?;
    for byte in [p.f, p.g, p.x, p.a, p.y, p.b, p.z, p.c] {
        print!(out; " {byte:02x}")?;
    }
    Ok(())
}

// What parts give.
fn together(out: &impl Print, p: Parts) -> io::Result<()> {
    match words::assemble(p) {
        Ok(w) => print!(out; "together {w:016x}"),
        Err(refusal) => print!(out; "refused {}", refusal.number()),
    }
}

// A listed word to its parts and back; the bits of it that are to be zero and those that may be either; and what 00 for each designator says.
fn there_and_back(out: &impl Print, word: u64) -> io::Result<()> {
    print!(out; "{word:016x}: ")?;
    match words::read(word) {
        Ok(p) => {
            parts(out, p)?;
            print!(out; ", ")?;
            together(out, p)?;
        }
        Err(refusal) => print!(out; "refused {}", refusal.number())?,
    }
    let zero = turned(word, Met::Refused(Refusal::NotZero));
    let free = turned(word, Met::Listed);
    print!(out; ", zero {zero:016x}, free {free:016x}, with 00:")?;
    without_each(out, word)
}

// 32 bits: R 21, S 23, T 25; R 21, T 25.
const RST: u64 = 0x0021_2325_0000_0000;

const RT: u64 = 0x0021_0025_0000_0000;

// G bits 1, 3 and 4, A 21, B 23, Z 25, C 27.
const TWO_SOURCES: u64 = 0x0058_0021_0023_2527;

// G bits 1 and 3, A 21, Z 25, C 27.
const ONE_SOURCE: u64 = 0x0050_0021_0000_2527;

// G bit 1, A 21, Z 25, C 27.
const CONTRACTED: u64 = 0x0040_0021_0000_2527;

// G bit 4, X 21, A 23, Y 25, B 27, Z 29, C 2B.
const BRANCH: u64 = 0x0008_2123_2527_292B;

// A word of each code: the code, and what is to the right of it.
const WORDS: [(u64, u64); 38] = [
    (0x09, 0), // exit
    (0x12, RST), // load byte
    (0x13, RST), // store byte
    (0x14, RST), // bit compress
    (0x15, RST), // bit merge
    (0x16, RST), // bit mask
    (0x2C, RST), // exclusive or
    (0x2D, RST), // and
    (0x2E, RST), // inclusive or
    (0x63, RST), // add low 48
    (0x67, RST), // subtract low 48
    (0x70, RT), // truncate
    (0x71, RT), // floor
    (0x72, RT), // ceiling
    (0x76, RT), // contract
    (0x77, RT), // rounded contract
    (0x78, RT), // transmit
    (0x7A, RT), // exponent
    (0x7B, RST), // pack
    (0x7C, RT), // left 16
    (0x7E, RST), // load word
    (0x7F, RST), // store word
    (0x83, TWO_SOURCES), // vector add low 48
    (0x87, TWO_SOURCES), // vector subtract low 48
    (0x8A, TWO_SOURCES), // vector shift
    (0x90, ONE_SOURCE), // vector truncate
    (0x91, ONE_SOURCE), // vector floor
    (0x92, ONE_SOURCE), // vector ceiling
    (0x96, CONTRACTED), // vector contract
    (0x97, CONTRACTED), // vector rounded contract
    (0x98, ONE_SOURCE), // vector transmit
    (0xB0, BRANCH), // EQ
    (0xB1, BRANCH), // NE
    (0xB2, BRANCH), // GE
    (0xB3, BRANCH), // LT
    (0xB4, BRANCH), // LE
    (0xB5, BRANCH), // GT
    (0xF8, 0x0000_2123_0025_2729), // move: X 21, A 23, B 25, Z 27, C 29
];

pub fn each_code(out: &impl Print) -> io::Result<()> {
    for (code, operands) in WORDS {
        there_and_back(out, (code << 56) | operands)?;
    }
    Ok(())
}

// Of all 256 codes, those that 5 does not refuse.
pub fn listed(out: &impl Print) -> io::Result<()> {
    print!(out; "listed:")?;
    for code in 0..256 {
        if both_ways(code << 56) != Met::Refused(Refusal::NotListed) {
            print!(out; " {code:02x}")?;
        }
    }
    println!(out)
}

// Bytes, and what they give.
fn of_bytes(out: &impl Print, p: Parts) -> io::Result<()> {
    parts(out, p)?;
    print!(out; ": ")?;
    together(out, p)?;
    println!(out)
}

// Words that are refused, and their bytes.
pub fn refused(out: &impl Print) -> io::Result<()> {
    for word in [
        // no such code: 5, whatever else is wrong
        0x0000_0000_0000_0000, // nothing
        0x0A21_2325_0000_0000, // the code after exit
        0xFF00_0000_0000_0000, // the last code
        0x9958_0121_0123_2527, // the code after vector transmit, with X and Y
        // a bit that is to be zero: 6
        0x0900_0001_0000_0000, // exit with T
        0x1221_2325_0000_0001, // 32 bits, and something right of them
        0x7021_0125_0000_0000, // format A with S
        0x8340_0021_0023_0027, // G bit 1 with Z 00
        0x8358_0121_0023_2527, // a vector with X
        0x9008_0021_0000_2527, // G bit 4 of one source
        0x9600_0021_0023_2527, // B of one source
        0xB010_2123_2527_2900, // G bit 3 of a branch, and C 00
        0xF800_2123_0125_2729, // a move with Y
        // a designator 00 that means nothing: 7; the last two have a bit that is to be zero besides: 6
        0x1200_2325_0000_0000, // R
        0x7621_0001_0000_0000, // half word 01
        0x7721_0000_0000_0000, // half word 00
        0x8300_0021_0000_2527, // B of two sources
        0x9000_0000_0000_2527, // A
        0xB008_2123_2500_292B, // B of a branch
        0xB008_2123_2527_2900, // C of a branch
        0xF800_2100_0025_2729, // A of a move
        0x7000_0100_0000_0000, // R and T, and S is 01
        0x8380_0000_0000_0000, // A, B and C, and G bit 0 is one
    ] {
        let met = both_ways(word);
        print!(out; "{word:016x}: refused {met}; ")?;
        of_bytes(out, Parts::from(word))?;
    }
    Ok(())
}

// Parts that are put together, and parts that are not: 5; 6 by Y, by G bit 1 with Z 00, by a byte right of 32 bits; 7 by half word 01, by B; and 6 before 7.
pub fn of_parts(out: &impl Print) -> io::Result<()> {
    for word in [
        0x8310_0041_0042_0043,
        0x7641_0002_0000_0000,
        0xB500_0000_0041_0042,
        0xF800_0041_0000_0042,
        0x8210_0041_0042_0043,
        0x8310_0041_0142_0043,
        0x8340_0041_0042_0043,
        0x7641_0002_0000_0001,
        0x7641_0001_0000_0000,
        0xB500_0000_0000_0042,
        0xF801_0000_0000_0000,
    ] {
        of_bytes(out, Parts::from(word))?;
    }
    Ok(())
}
