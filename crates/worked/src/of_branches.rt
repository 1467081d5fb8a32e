// 000 3.1.2's chart of packed instructions, and 3.2.1.182's table of the order of numbers.
use crate::jobs;
use crate::jobs::Case;
use crate::printed::{A, B_ALIGNED, MINUS_A, MINUS_B_ALIGNED, MINUS_S, R_ALIGNED};
use runs::calls::Outcome;
use runs::records::Record;
use runs::{answers, calls};
use std::io;

// The five words of the chart: 32-bit ones are transmits and an exit, 64-bit ones are branches that are not taken. Behind them a branch that is taken, to a
// base of 4000 and an index of half words.
const CHART: [u64; 6] = [
    0x7810_0011_B100_0000,
    0x0012_0013_B100_0000,
    0x0012_0013_7810_0011,
    0xB100_0000_0012_0013,
    0x7810_0011_0900_0000,
    0xB000_0000_1412_0013,
];

fn chart(p: u64, budget: u32, half_words: u64) -> Outcome {
    let mut m = [0u8; 48];
    jobs::put(&mut m, &CHART);
    let mut registers = [0u64; 256];
    registers[0x12] = 0x4000;
    registers[0x14] = half_words;
    calls::run(&mut m, &mut registers, Record::between(p, 0), budget)
}

// P after so many instructions of the chart, and the answer.
pub fn packed(out: &impl Print) -> io::Result<()> {
    for instructions in 0..8 {
        let r = chart(0x4000, instructions, 0);
        let number = answers::number(r.answer);
        print!(out; "09 000 3.1.2 chart, {} instructions: ", r.steps)?;
        println!(out; "P {:04x} answer {number}", r.rec.p)?;
    }
    Ok(())
}

// Where B0 goes from behind the chart: a branch is possible to any of the instructions.
pub fn targets(out: &impl Print) -> io::Result<()> {
    for half_words in [0, 1, 3, 5, 6, 8, 9] {
        let r = chart(0x4140, 1, half_words);
        println!(out;
            "b0 000 3.1.2 chart, half words {half_words:x}: P {:04x}",
            r.rec.p
        )?;
    }
    Ok(())
}

// The sum of A and X goes to C, with A's left 16. Z is 00 and the condition is not met, so the exit behind is next. In the last case A and X 00 supply
// machine zero, and the branch that is taken goes to the exit.
pub fn sums(out: &impl Print) -> io::Result<()> {
    let positive = "000 3.1.4.6.3, A and -B aligned";
    let negative = "000 3.1.4.6.3, B aligned and -A";
    let zero = "000 3.1.4.5.3, r aligned and -s";
    let machine_zero = "000 3.2.1.182 and 3.1.7, A, X and Z 00";
    jobs::on_registers(
        out,
        &[
            (Case(0xB000_1110_0010_0012, positive), [A, MINUS_B_ALIGNED]),
            (Case(0xB300_1110_0010_0012, positive), [A, MINUS_B_ALIGNED]),
            (Case(0xB400_1110_0010_0012, positive), [A, MINUS_B_ALIGNED]),
            (Case(0xB200_1110_0010_0012, negative), [B_ALIGNED, MINUS_A]),
            (Case(0xB500_1110_0010_0012, negative), [B_ALIGNED, MINUS_A]),
            (Case(0xB100_1110_0010_0012, zero), [R_ALIGNED, MINUS_S]),
            (Case(0xB000_0000_0011_0012, machine_zero), [0, 0x4040]),
        ],
    )
}

// The branches of all six conditions: A is register 10, X supplies zero, B is register 11, Z is register 12.
const BRANCHES: [u64; 6] = [
    0xB000_0010_0011_1213,
    0xB100_0010_0011_1213,
    0xB200_0010_0011_1213,
    0xB300_0010_0011_1213,
    0xB400_0010_0011_1213,
    0xB500_0010_0011_1213,
];

// G bit 4: the same unsigned.
const UNSIGNED_BIT: u64 = 0x0008_0000_0000_0000;

// The columns of the table, from the largest number.
const SIGNED: [u64; 7] = [
    0x7FFF_FFFF_FFFF,
    0x7FFF_FFFF_FFFE,
    0x0000_0000_0001,
    0x0000_0000_0000,
    0xFFFF_FFFF_FFFF,
    0x8000_0000_0001,
    0x8000_0000_0000,
];

const UNSIGNED: [u64; 7] = [
    0xFFFF_FFFF_FFFF,
    0xFFFF_FFFF_FFFE,
    0x8000_0000_0001,
    0x8000_0000_0000,
    0x7FFF_FFFF_FFFF,
    0x0000_0000_0001,
    0x0000_0000_0000,
];

// Both ends of the signed column and the middle.
const ENDS: [u64; 4] = [
    0x7FFF_FFFF_FFFF,
    0x0000_0000_0000,
    0xFFFF_FFFF_FFFF,
    0x8000_0000_0000,
];

// Is the branch taken?
fn taken(word: u64, a: u64, z: u64) -> bool {
    let mut m = [0u8; 8];
    jobs::put(&mut m, &[word]);
    let mut registers = [0u64; 256];
    registers[0x10] = a;
    registers[0x11] = 0x4080;
    registers[0x12] = z;
    let r = calls::run(&mut m, &mut registers, Record::between(0x4000, 0), 1);
    r.rec.p == 0x4080
}

// 1 where the branch is taken, for each of the numbers against the other in its place.
fn against(out: &impl Print, word: u64, numbers: &[u64], others: &[u64]) -> io::Result<()> {
    for (a, z) in numbers.iter().zip(others) {
        let digit = if taken(word, *a, *z) { 1 } else { 0 };
        print!(out; "{digit}")?;
    }
    Ok(())
}

// One after the other of a column against the next smaller one; then the other way round.
fn column(out: &impl Print, case: Case, numbers: &[u64; 7]) -> io::Result<()> {
    let larger = &numbers[..6];
    let smaller = &numbers[1..];
    case.begin(out)?;
    print!(out; " ")?;
    against(out, case.0, larger, smaller)?;
    print!(out; ", the next larger ")?;
    against(out, case.0, smaller, larger)?;
    println!(out)
}

// A column in each branch, with the bit of G that asks for it.
fn columns(out: &impl Print, bit: u64, what: &'static str, numbers: &[u64; 7]) -> io::Result<()> {
    for word in BRANCHES {
        column(out, Case(word | bit, what), numbers)?;
    }
    Ok(())
}

// A number against itself.
fn equal(out: &impl Print) -> io::Result<()> {
    for word in BRANCHES {
        Case(word, "000 3.2.1.182, each and itself").begin(out)?;
        print!(out; " ")?;
        against(out, word, &ENDS, &ENDS)?;
        println!(out)?;
    }
    Ok(())
}

pub fn order(out: &impl Print) -> io::Result<()> {
    let signed = "000 3.2.1.182, signed, each and the next smaller";
    let unsigned = "000 3.2.1.182, unsigned, each and the next smaller";
    columns(out, 0, signed, &SIGNED)?;
    columns(out, UNSIGNED_BIT, unsigned, &UNSIGNED)?;
    equal(out)
}
