// Truth tables, and the 48-bit sums, complements and shifts that the documents write down on their way through a floating subtraction.
use crate::jobs;
use crate::jobs::Case;
use crate::printed::{A, B_ALIGNED, MINUS_A, MINUS_B_ALIGNED, MINUS_S, MINUS_S_ALIGNED, R_ALIGNED};
use std::io;

// R, S and T are registers 10, 11 and 12, and exit follows.
const EXCLUSIVE_OR: u64 = 0x2C10_1112_0900_0000;

const AND: u64 = 0x2D10_1112_0900_0000;

const INCLUSIVE_OR: u64 = 0x2E10_1112_0900_0000;

const ADD: u64 = 0x6310_1112_0900_0000;

const SUBTRACT: u64 = 0x6710_1112_0900_0000;

// A, B and C are registers 10, 11 and 12.
const VECTOR_ADD: u64 = 0x8300_0010_0011_0012;

const VECTOR_SUBTRACT: u64 = 0x8700_0010_0011_0012;

const VECTOR_SHIFT: u64 = 0x8A00_0010_0011_0012;

// Two items of each source.
const TWO_ITEMS: [u64; 3] = [
    0x0002_0000_0000_4080,
    0x0002_0000_0000_4100,
    0x0002_0000_0000_4180,
];

// The four rows of each truth table, R 0011 and S 0101, sixteen times over.
const ROWS: [u64; 2] = [0x3333_3333_3333_3333, 0x5555_5555_5555_5555];

pub fn logic(out: &impl Print) -> io::Result<()> {
    jobs::on_registers(
        out,
        &[
            (Case(EXCLUSIVE_OR, "003 #2C, truth table"), ROWS),
            (Case(AND, "003 #2D, truth table"), ROWS),
            (Case(INCLUSIVE_OR, "003 #2E, truth table"), ROWS),
        ],
    )
}

// Operands of one exponent, whose coefficients are added.
pub fn sums(out: &impl Print) -> io::Result<()> {
    for (what, operands) in [
        ("000 3.1.4.6.3, A and -B aligned", [A, MINUS_B_ALIGNED]),
        ("000 3.1.4.6.3, B aligned and -A", [B_ALIGNED, MINUS_A]),
        ("000 3.1.4.5.3, r aligned and -s", [R_ALIGNED, MINUS_S]),
        (
            "000 3.1.4.5.3, r and -s aligned",
            [R_ALIGNED, MINUS_S_ALIGNED],
        ),
    ] {
        Case(ADD, what).on_registers(out, operands, 0x12)?;
    }
    Ok(())
}

// A complement is zero, with the number's exponent, less the number.
pub fn differences(out: &impl Print) -> io::Result<()> {
    for (what, r, s) in [
        (
            "000 3.1.4.6.3, complement of B",
            0x0100 << 48,
            0x0100_6FAC_3F5D_A5FA,
        ),
        ("000 3.1.4.6.3, complement of A", 0x0104 << 48, A),
        ("000 3.1.4.6.3, B aligned less A", B_ALIGNED, A),
        ("000 3.1.4.6.3, -(B-A)", 0x0104 << 48, 0x0104_972F_4377_506D),
        (
            "000 3.1.4.5.3, complement of s",
            0x0104 << 48,
            0x0104_0000_0000_0100,
        ),
        (
            "000 3.1.4.5.3, complement of s, interchanged",
            0x0100 << 48,
            0x0100_0000_0000_1001,
        ),
        ("003 appendix F, -2965", 0, 0x0000_0000_0000_0B95),
    ] {
        Case(SUBTRACT, what).on_registers(out, [r, s], 0x12)?;
    }
    Ok(())
}

// The same sums and differences as items, and coefficients aligned by four places, with the digit that leaves the 48 bits; and the documents' own count FE.
pub fn vectors(out: &impl Print) -> io::Result<()> {
    let add = Case(VECTOR_ADD, "000 3.1.4.6.3 and 3.1.4.5.3, sums");
    let subtract = Case(VECTOR_SUBTRACT, "000 3.1.4.6.3 and 3.1.4.5.3, differences");
    let from_zero = Case(VECTOR_SUBTRACT, "003 #87 and appendix F, -2965 and -5");
    let shift_negative = Case(
        VECTOR_SHIFT,
        "000 3.1.4.6.3 and 3.1.4.5.3, -B and -s aligned",
    );
    let shift_positive = Case(VECTOR_SHIFT, "000 3.1.4.6.3 and 3.1.4.5.3, B and r aligned");
    let shift_ends = Case(VECTOR_SHIFT, "000 3.2.1.49 and 003 #34, count FE");
    for (case, sources) in [
        (add, [A, R_ALIGNED, MINUS_B_ALIGNED, MINUS_S_ALIGNED]),
        (subtract, [B_ALIGNED, 0x0104_0000_0000_0000, A, R_ALIGNED]),
        (from_zero, [0, 0, 0x0B95, 0x0005]),
        (
            shift_negative,
            [0x9053_C0A2_5A06_0000, 0xFFFF_FFFF_EFFF_0000, 0xFC, 0xFC],
        ),
        (
            shift_positive,
            [0x6FAC_3F5D_A5FA_0000, 0x0000_0000_1001_0000, 0xFC, 0xFC],
        ),
        (
            shift_ends,
            [0x8000_0000_0000_0000, 0x4000_0000_0000_0000, 0xFE, 0xFE],
        ),
    ] {
        case.on_fields(out, TWO_ITEMS, sources)?;
    }
    Ok(())
}
