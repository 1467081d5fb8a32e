// Plus and minus one, which 000 3.1.4.3.1 and 3.1.4.3.2 print as 32-bit and as 64-bit numbers, and the table of contract.
use crate::jobs::Case;
use crate::printed::{MINUS_ONE, PLUS_ONE};
use std::io;

// R is register 10 and T is register 12, and exit follows.
const TRUNCATE: u64 = 0x7010_0012_0900_0000;

const FLOOR: u64 = 0x7110_0012_0900_0000;

const CEILING: u64 = 0x7210_0012_0900_0000;

const EXPONENT: u64 = 0x7A10_0012_0900_0000;

const LENGTH: u64 = 0x7C10_0012_0900_0000;

// T is half word 24, the left half of register 12.
const CONTRACT: u64 = 0x7610_0024_0900_0000;

const ROUNDED: u64 = 0x7710_0024_0900_0000;

// R and S are registers 10 and 11.
const PACK: u64 = 0x7B10_1112_0900_0000;

// Each of the instructions on one operand.
fn each(out: &impl Print, words: &[u64], what: &'static str, operand: u64) -> io::Result<()> {
    for word in words {
        Case(*word, what).on_registers(out, [operand, 0], 0x12)?;
    }
    Ok(())
}

fn all(out: &impl Print, words: &[u64], cases: &[(&'static str, u64)]) -> io::Result<()> {
    for (what, operand) in cases {
        each(out, words, *what, *operand)?;
    }
    Ok(())
}

// A number that is an integer is its own truncate, floor and ceiling; the end cases are of the instructions' own sections.
pub fn wholes(out: &impl Print) -> io::Result<()> {
    all(
        out,
        &[TRUNCATE, FLOOR, CEILING],
        &[
            ("000 3.1.4.3.2, +1 normalized", PLUS_ONE),
            ("000 3.1.4.3.2, -1 normalized", MINUS_ONE),
            ("000 3.1.4.3.2, +256", 0x0000_0000_0000_0100),
            ("000 3.1.7, machine zero", 0x8000_0000_0000_0000),
            ("000 3.1.4.3.2, indefinite", 0x7000_0000_0000_0000),
        ],
    )
}

// Coefficients that 000 aligns by four places, here with the exponent -4. Floor shifts with sign, as an alignment does. Ceiling, and truncate of a
// negative coefficient, complement, shift and complement: the steps are printed, but for the last one of the ceiling of r.
pub fn shifted_wholes(out: &impl Print) -> io::Result<()> {
    let r = 0xFFFC_0000_0000_1001;
    let minus_s = 0xFFFC_FFFF_FFFF_EFFF;
    all(
        out,
        &[FLOOR],
        &[
            ("000 3.1.4.6.3, B aligned", 0xFFFC_6FAC_3F5D_A5FA),
            ("000 3.1.4.6.3, -B aligned", 0xFFFC_9053_C0A2_5A06),
            ("000 3.1.4.5.3, r aligned", r),
            ("000 3.1.4.5.3, -s aligned", minus_s),
        ],
    )?;
    all(
        out,
        &[TRUNCATE],
        &[
            ("000 3.1.4.5.3, r aligned", r),
            ("000 3.1.4.5.3, -s, its magnitude aligned", minus_s),
        ],
    )?;
    all(
        out,
        &[CEILING],
        &[
            ("000 3.1.4.5.3, r, its complement aligned", r),
            ("000 3.1.4.5.3, -s, its complement aligned", minus_s),
        ],
    )
}

// A contracted number is the same number as a 32-bit one.
fn contracted(out: &impl Print) -> io::Result<()> {
    all(
        out,
        &[CONTRACT, ROUNDED],
        &[
            ("000 3.1.4.3.2 to 3.1.4.3.1, +1 normalized", PLUS_ONE),
            ("000 3.1.4.3.2 to 3.1.4.3.1, -1 normalized", MINUS_ONE),
        ],
    )?;
    all(
        out,
        &[CONTRACT],
        &[
            ("000 3.2.1.119, -1 to minus one", 0x0000_FFFF_FFFF_FFFF),
            ("000 3.2.1.119, -2**24 to minus one", 0x0000_FFFF_FF00_0000),
        ],
    )
}

// Figure 1 says which half of which register has which number: two instructions, with plus one and minus one, to the two halves of a register.
pub fn contracts(out: &impl Print) -> io::Result<()> {
    contracted(out)?;
    for (word, what, register) in [
        (
            0x7610_0002_7611_0003,
            "000 3.1.7 figure 1, half words 02 and 03",
            0x01,
        ),
        (
            0x7610_0004_7611_0005,
            "000 3.1.7 figure 1, half words 04 and 05",
            0x02,
        ),
        (
            0x7710_00FE_7711_00FF,
            "000 3.1.7 figure 1, half words FE and FF",
            0x7F,
        ),
    ] {
        Case(word, what).on_registers(out, [PLUS_ONE, MINUS_ONE], register)?;
    }
    Ok(())
}

// The table of input exponents, both ends of each row, and 003's rule for the last row under 77.
pub fn contract_table(out: &impl Print) -> io::Result<()> {
    all(
        out,
        &[CONTRACT],
        &[
            ("000 3.2.1.119, exponent 7FFF", 0x7FFF_1234_5678_9ABC),
            ("000 3.2.1.119, exponent 7000", 0x7000_1234_5678_9ABC),
            ("000 3.2.1.119, exponent 6FFF", 0x6FFF_1234_5678_9ABC),
            ("000 3.2.1.119, exponent 0058", 0x0058_1234_5678_9ABC),
            ("000 3.2.1.119, exponent 0057", 0x0057_1234_5678_9ABC),
            ("000 3.2.1.119, exponent FF78", 0xFF78_1234_5678_9ABC),
            ("000 3.2.1.119, exponent FF77", 0xFF77_1234_5678_9ABC),
            ("000 3.2.1.119, exponent 8000", 0x8000_1234_5678_9ABC),
        ],
    )?;
    all(
        out,
        &[ROUNDED],
        &[
            ("003 #77, exponent FF77", 0xFF77_7FFF_FFFF_FFFF),
            ("003 #77, exponent 8000", 0x8000_7FFF_FFFF_FFFF),
        ],
    )
}

// Numbers made of their two parts.
fn packs(out: &impl Print) -> io::Result<()> {
    for (what, exponent, coefficient) in [
        (
            "000 3.1.4.3.2, +1 normalized",
            0x0000_FFFF_FFFF_FFD2,
            0x0000_4000_0000_0000,
        ),
        (
            "000 3.1.4.3.2, -1 normalized",
            0x0000_FFFF_FFFF_FFD1,
            0x0000_8000_0000_0000,
        ),
    ] {
        Case(PACK, what).on_registers(out, [exponent, coefficient], 0x12)?;
    }
    Ok(())
}

// Exponents, numbers made of their two parts, and lengths of descriptors that 000 prints.
pub fn parts(out: &impl Print) -> io::Result<()> {
    all(
        out,
        &[EXPONENT],
        &[
            ("000 3.1.4.3.2, +1 normalized", PLUS_ONE),
            ("000 3.1.4.3.2, exponent -28,672", 0x9000_0000_0000_0001),
            ("000 3.1.4.3.2, exponent +28,671", 0x6FFF_0000_0000_0001),
        ],
    )?;
    packs(out)?;
    all(
        out,
        &[LENGTH],
        &[
            ("000 3.2.1.176, register 06", 0x0008_0000_0000_3000),
            ("000 3.2.1.208, register 08", 0x0006_0000_0002_0000),
            ("000 3.2.1.208, register 09", 0x0004_0000_0003_0000),
        ],
    )
}

// Two items, plus and minus one.
pub fn vectors(out: &impl Print) -> io::Result<()> {
    let fields = [0x0002_0000_0000_4080, 0, 0x0002_0000_0000_4180];
    for case in [
        Case(0x9000_0010_0000_0012, "000 3.1.4.3.2, +1 and -1 normalized"),
        Case(0x9100_0010_0000_0012, "000 3.1.4.3.2, +1 and -1 normalized"),
        Case(0x9200_0010_0000_0012, "000 3.1.4.3.2, +1 and -1 normalized"),
        Case(
            0x9600_0010_0000_0012,
            "000 3.1.4.3.2 to 3.1.4.3.1, +1 and -1 normalized",
        ),
        Case(
            0x9700_0010_0000_0012,
            "000 3.1.4.3.2 to 3.1.4.3.1, +1 and -1 normalized",
        ),
    ] {
        case.on_fields(out, fields, [PLUS_ONE, MINUS_ONE, 0, 0])?;
    }
    Ok(())
}
