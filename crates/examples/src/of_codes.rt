// Every listed code once and more, and every refusal that its word can meet: one instruction, then exit. What the registers hold, one_job says.
use crate::codes::Code;
use crate::one_job::{Job, cut_off};
use std::io;

const ADDRESSED: [Code; 4] = [
    Code::LoadByte,
    Code::StoreByte,
    Code::LoadWord,
    Code::StoreWord,
];

const OF_BITS: [Code; 3] = [Code::Compress, Code::Merge, Code::Mask];

const OF_TWO_WORDS: [Code; 6] = [
    Code::ExclusiveOr,
    Code::And,
    Code::InclusiveOr,
    Code::Add,
    Code::Subtract,
    Code::Pack,
];

const TO_WHOLE: [Code; 3] = [Code::Truncate, Code::Floor, Code::Ceiling];

const TO_HALF_WORD: [Code; 2] = [Code::Contract, Code::RoundedContract];

const TO_WORD: [Code; 3] = [Code::Transmit, Code::Exponent, Code::Left16];

const VECTORS_OF_TWO: [Code; 3] = [Code::VectorAdd, Code::VectorSubtract, Code::VectorShift];

const VECTORS_OF_ONE: [Code; 4] = [
    Code::VectorTruncate,
    Code::VectorFloor,
    Code::VectorCeiling,
    Code::VectorTransmit,
];

const VECTORS_TO_HALF: [Code; 2] = [Code::VectorContract, Code::VectorRoundedContract];

const BRANCHES: [Code; 6] = [
    Code::BranchEq,
    Code::BranchNe,
    Code::BranchGe,
    Code::BranchLt,
    Code::BranchLe,
    Code::BranchGt,
];

// The codes of 64 bits.
const LONG: [Code; 16] = [
    Code::VectorAdd,
    Code::VectorSubtract,
    Code::VectorShift,
    Code::VectorTruncate,
    Code::VectorFloor,
    Code::VectorCeiling,
    Code::VectorContract,
    Code::VectorRoundedContract,
    Code::VectorTransmit,
    Code::BranchEq,
    Code::BranchNe,
    Code::BranchGe,
    Code::BranchLt,
    Code::BranchLe,
    Code::BranchGt,
    Code::Move,
];

// Three bytes and two words on, to register 30 and from register 11.
const LOADS_AND_STORES: [(Code, u64); 4] = [
    (Code::LoadByte, 0x18_19_30),
    (Code::LoadWord, 0x18_1B_30),
    (Code::StoreByte, 0x1C_19_11),
    (Code::StoreWord, 0x1C_1B_11),
];

// A register's count is its low 48, and addresses wrap at 2^48: three bytes or words before.
const COUNTS_THAT_WRAP: [(Code, u64); 4] = [
    (Code::LoadByte, 0x18_12_30),
    (Code::StoreByte, 0x1C_12_11),
    (Code::LoadWord, 0x1C_12_30),
    (Code::StoreWord, 0x1C_12_11),
];

// Runs of two bits and of one; then merge and mask with zeros for S.
const COMPRESS_MERGE_MASK: [(Code, u64); 5] = [
    (Code::Compress, 0x25_26_27),
    (Code::Merge, 0x25_26_27),
    (Code::Mask, 0x25_26_27),
    (Code::Merge, 0x25_28_27),
    (Code::Mask, 0x25_28_27),
];

// A code with each of the operands.
fn each(out: &impl Print, code: Code, operands: &[u64]) -> io::Result<()> {
    for these in operands {
        Job::new(code, *these).tell(out)?;
    }
    Ok(())
}

// Each of the codes with each of the operands.
fn all(out: &impl Print, codes: &[Code], operands: &[u64]) -> io::Result<()> {
    for code in codes {
        each(out, *code, operands)?;
    }
    Ok(())
}

// Codes with operands of their own.
fn pairs(out: &impl Print, cases: &[(Code, u64)]) -> io::Result<()> {
    for (code, operands) in cases {
        Job::new(*code, *operands).tell(out)?;
    }
    Ok(())
}

// A job with each of the values in the register beside it.
fn with_each(out: &impl Print, job: Job, values: &[(u8, u64)]) -> io::Result<()> {
    for (register, value) in values {
        job.with(*register, *value).tell(out)?;
    }
    Ok(())
}

// Exit; two codes that are not listed: 5; exit with an R, and with a T: 6.
fn exit_and_codes_not_listed(out: &impl Print) -> io::Result<()> {
    for word in [
        0x0900_0000_0000_0000,
        0x0100_0000_0000_0000,
        0xFF00_0000_0000_0000,
        0x0901_0000_0000_0000,
        0x0900_0001_0000_0000,
    ] {
        Job::plain(word).tell(out)?;
    }
    Ok(())
}

// R, S and T 00 in turn: 7.
fn designators_00(out: &impl Print, code: Code, rst: u64) -> io::Result<()> {
    each(
        out,
        code,
        &[rst & 0x00_FF_FF, rst & 0xFF_00_FF, rst & 0xFF_FF_00],
    )
}

// Register 18 is the address and register 1F is zero. No multiple of 8 or 64: 8. The last word of the register file, the first behind the memory: 10.
fn addresses_refused(out: &impl Print) -> io::Result<()> {
    for code in ADDRESSED {
        designators_00(out, code, 0x18_19_30)?;
        with_each(
            out,
            Job::new(code, 0x18_1F_30),
            &[(0x18, 0x4081), (0x18, 0x3FC0), (0x18, 0x4400)],
        )?;
    }
    Ok(())
}

// r, n and s zero. T past the end, R in the register file, S past the end and in the register file where it is read: 10. T over R, and over S where it is
// read: 11.
fn bit_fields_at_the_ends(out: &impl Print) -> io::Result<()> {
    for code in OF_BITS {
        designators_00(out, code, 0x25_26_27)?;
        with_each(
            out,
            Job::new(code, 0x25_26_27),
            &[
                (0x25, 0x0000_0000_0000_4080),
                (0x27, 0x0000_0000_0000_4303),
                (0x26, 0x0000_0000_0000_40C0),
                (0x27, 0x0028_0000_0000_43E0),
                (0x25, 0x0002_0000_0000_3FFF),
                (0x26, 0x0001_0000_0000_43FF),
                (0x26, 0x0001_0000_0000_1000),
                (0x27, 0x0028_0000_0000_4085),
                (0x26, 0x0001_0000_0000_4303),
            ],
        )?;
    }
    Ok(())
}

fn two_words_refused(out: &impl Print) -> io::Result<()> {
    for code in OF_TWO_WORDS {
        designators_00(out, code, 0x11_12_30)?;
    }
    Ok(())
}

fn one_word_to_one(out: &impl Print) -> io::Result<()> {
    // a fraction, and an indefinite number
    all(out, &TO_WHOLE, &[0x12_00_30, 0x16_00_30])?;
    // in range, at its upper end, below it, indefinite; to the left half of register 30 and to the right half
    all(
        out,
        &TO_HALF_WORD,
        &[0x10_00_60, 0x14_00_61, 0x15_00_60, 0x16_00_61],
    )?;
    all(out, &TO_WORD, &[0x12_00_30])
}

// S not 00: 6. R 00, T 00: 7. T 01: 7 where it is a half word.
fn one_word_refused(out: &impl Print, codes: &[Code]) -> io::Result<()> {
    all(
        out,
        codes,
        &[0x12_01_30, 0x00_00_30, 0x12_00_00, 0x12_00_01],
    )
}

// What refuses a vector by its word: G bit 0, G bit 7, G bit 1 with Z 00, X, Y: 6. A 00, C 00: 7. B is register 21 where b says so, and then 00 is 7;
// where only A is used, any other is 6.
fn vector_word_refused(out: &impl Print, code: Code, b: u64, wrong_b: u64) -> io::Result<()> {
    each(
        out,
        code,
        &[
            b | 0x80_00_20_00_00_23_22,
            b | 0x01_00_20_00_00_23_22,
            b | 0x40_00_20_00_00_00_22,
            b | 0x00_01_20_00_00_00_22,
            b | 0x00_00_20_01_00_00_22,
            b | 0x00_00_00_00_00_00_22,
            b | 0x00_00_20_00_00_00_00,
            wrong_b | 0x00_00_20_00_00_00_22,
        ],
    )
}

// What refuses a vector by its fields, which its operands name, and with a control field where register 23 is its Z.
fn vector_fields_refused(out: &impl Print, code: Code, gxaybzc: u64) -> io::Result<()> {
    let job = Job::new(code, gxaybzc);
    with_each(
        out,
        job,
        &[
            (0x22, 0x0000_0000_0000_4300), // no items: nothing
            (0x22, 0x0001_0000_0000_4304), // C: 8
            (0x20, 0x0004_0000_0000_4081), // A: 8
            (0x20, 0x0003_0000_0000_4080), // A shorter than C: 9
            (0x22, 0x0004_0000_0000_4340), // C past the end: 10, but not of half words
        ],
    )?;
    // control bits past the end: 10; control bits in C: 11
    with_each(
        out,
        Job::new(code, gxaybzc | 0x23_00),
        &[(0x23, 0x43FE), (0x23, 0x4310)],
    )?;
    with_each(
        out,
        job,
        &[
            (0x20, 0x0004_0000_0000_4340), // A past the end: 10
            (0x20, 0x0004_0000_0000_42C0), // A a word before C: 11
            (0x20, 0x0004_0000_0000_4300), // A is C: 11, but not of words
        ],
    )
}

// All items; where a control bit is one; G bit 1, where it is zero; G bit 3, register A itself; G bit 4, register B; all three. Then B is C, and A too.
fn vectors_of_two(out: &impl Print) -> io::Result<()> {
    all(
        out,
        &VECTORS_OF_TWO,
        &[
            0x00_00_20_00_21_00_22,
            0x00_00_20_00_21_23_22,
            0x40_00_20_00_21_23_22,
            0x10_00_20_00_21_00_22,
            0x08_00_20_00_21_23_22,
            0x58_00_20_00_21_23_22,
            0x00_00_20_00_22_00_22,
            0x00_00_22_00_22_00_22,
        ],
    )
}

fn vectors_of_two_refused(out: &impl Print) -> io::Result<()> {
    for code in VECTORS_OF_TWO {
        vector_word_refused(out, code, 0x21_00_00, 0x00_00_00)?;
        vector_fields_refused(out, code, 0x00_00_20_00_21_00_22)?;
    }
    Ok(())
}

// All items; where a control bit is one; G bit 1, where it is zero; G bit 3, register A itself. Then A is C.
fn vectors_of_one(out: &impl Print) -> io::Result<()> {
    all(
        out,
        &VECTORS_OF_ONE,
        &[
            0x00_00_20_00_00_00_22,
            0x00_00_20_00_00_23_22,
            0x40_00_20_00_00_23_22,
            0x10_00_20_00_00_00_22,
            0x00_00_22_00_00_00_22,
        ],
    )
}

fn vectors_of_one_refused(out: &impl Print, codes: &[Code]) -> io::Result<()> {
    for code in codes {
        vector_word_refused(out, *code, 0x00_00_00, 0x1F_00_00)?;
        vector_fields_refused(out, *code, 0x00_00_20_00_00_00_22)?;
    }
    Ok(())
}

// All items; where a control bit is one; G bit 1, where it is zero.
fn vectors_contracted(out: &impl Print) -> io::Result<()> {
    all(
        out,
        &VECTORS_TO_HALF,
        &[
            0x00_00_20_00_00_00_24,
            0x00_00_20_00_00_23_24,
            0x40_00_20_00_00_23_24,
        ],
    )
}

// A, X and Z 00, which is 0 against 0 (example 13 of the scope paper in B0); -3 + 1 against 1; -1 against 0 (its example 14 in B3). Then the same unsigned,
// G bit 4. The exit at 42A0 is next where the branch is taken, the one at 4040 where it is not.
fn compared(out: &impl Print) -> io::Result<()> {
    all(
        out,
        &BRANCHES,
        &[
            0x00_00_00_00_1E_00_30,
            0x00_1D_12_00_1E_1D_30,
            0x00_00_11_00_1E_00_30,
            0x08_00_00_00_1E_00_30,
            0x08_1D_12_00_1E_1D_30,
            0x08_00_11_00_1E_00_30,
        ],
    )
}

// G bit 0, G bit 5: 6. B 00, C 00: 7. Where 0 against 0 is taken, a target that is no multiple of 32: 8, and one that is not in memory: 4 after the step.
fn branches_refused(out: &impl Print) -> io::Result<()> {
    for code in BRANCHES {
        each(
            out,
            code,
            &[
                0x80_00_11_00_1E_00_30,
                0x04_00_11_00_1E_00_30,
                0x00_00_11_00_00_00_30,
                0x00_00_11_00_1E_00_00,
            ],
        )?;
        with_each(
            out,
            Job::new(code, 0x00_00_00_00_1E_00_30),
            &[(0x1E, 0x4041), (0x1E, 0x9000)],
        )?;
    }
    Ok(())
}

// A sum above Z, and one below it: 8 where the branch is taken.
fn misaligned_where_taken(out: &impl Print) -> io::Result<()> {
    for code in BRANCHES {
        let above = Job::new(code, 0x00_1D_10_00_1E_1D_30);
        let below = Job::new(code, 0x00_1D_12_00_1E_1D_30);
        above.with(0x1E, 0x4041).tell(out)?;
        below.with(0x1E, 0x4041).tell(out)?;
    }
    Ok(())
}

// Between them a target with one half word: 40A0, where no listed code stands.
fn branches(out: &impl Print) -> io::Result<()> {
    compared(out)?;
    Job::new(Code::BranchNe, 0x00_1D_10_1D_1A_00_30).tell(out)?;
    branches_refused(out)?;
    misaligned_where_taken(out)
}

fn moves(out: &impl Print) -> io::Result<()> {
    each(
        out,
        Code::Move,
        &[
            0x00_00_29_00_2E_00_2A, // five bytes to twelve, filled with 2E
            0x00_1D_29_00_2E_1D_2A, // both a byte later
            0x01_00_29_00_2E_00_2A, // G: 6
            0x00_00_29_01_2E_00_2A, // Y: 6
            0x00_00_00_00_2E_00_2A, // A 00: 7
            0x00_00_29_00_2E_00_00, // C 00: 7
        ],
    )?;
    with_each(
        out,
        Job::new(Code::Move, 0x00_00_29_00_2E_00_2A),
        &[
            (0x2A, 0x0000_0000_0000_4300), // no items: nothing
            (0x2A, 0x0005_0000_0000_4301), // C: 8
            (0x29, 0x0005_0000_0000_4081), // A: 8
            (0x29, 0x0000_0000_0000_4081), // A empty, and not checked
            (0x2A, 0x000C_0000_0000_43F0), // C past the end: 10
            (0x29, 0x0005_0000_0000_3FE0), // A from the register file on: 10
            (0x29, 0x0005_0000_0000_4358), // A in C: 11
            (0x2A, 0x000C_0000_0000_4090), // C over A: 11
        ],
    )
}

fn all_cut_off(out: &impl Print) -> io::Result<()> {
    for code in LONG {
        cut_off(out, code)?;
    }
    Ok(())
}

fn short_codes(out: &impl Print) -> io::Result<()> {
    exit_and_codes_not_listed(out)?;
    pairs(out, &LOADS_AND_STORES)?;
    addresses_refused(out)?;
    pairs(out, &COUNTS_THAT_WRAP)?;
    pairs(out, &COMPRESS_MERGE_MASK)?;
    bit_fields_at_the_ends(out)?;
    all(out, &OF_TWO_WORDS, &[0x11_12_30])?;
    two_words_refused(out)?;
    one_word_to_one(out)?;
    one_word_refused(out, &TO_WHOLE)?;
    one_word_refused(out, &TO_HALF_WORD)?;
    one_word_refused(out, &TO_WORD)
}

// All of them, family by family.
pub fn every_code(out: &impl Print) -> io::Result<()> {
    short_codes(out)?;
    vectors_of_two(out)?;
    vectors_of_two_refused(out)?;
    vectors_of_one(out)?;
    vectors_of_one_refused(out, &VECTORS_OF_ONE)?;
    vectors_contracted(out)?;
    vectors_of_one_refused(out, &VECTORS_TO_HALF)?;
    branches(out)?;
    moves(out)?;
    all_cut_off(out)
}
