// The one constant table, row by row: what is to be zero in a word of each code, which designators may not be 00, how long it is, and whether it goes by items.
use instructions::table;
use instructions::table::{Kind, Row};
use std::io;

fn line(out: &impl Print, row: Row) -> io::Result<()> {
    let code = row.0;
    let zero = row.zero_bits();
    let named = row.named();
    let bits = if row.long() { 64 } else { 32 };
    let items = if row.has_items() { ", by items" } else { "" };
    println!(out; "row {code:02x}: zero {zero:016x}, named {named:016x}, {bits} bits{items}")
}

// All of it; behind the last row there is none.
pub fn rows(out: &impl Print) -> io::Result<()> {
    for place in 0..256 {
        if let Some(row) = table::row_at(place) {
            line(out, row)?;
        }
    }
    Ok(())
}

// Each number that a row can have as its format, whether a line of the table has it or not: those of long words by themselves, the others counted.
pub fn formats(out: &impl Print) -> io::Result<()> {
    let mut others: u64 = 0;
    for number in 0..=255 {
        let row = Row(0, number, 0, 0, 0, Kind::Exit);
        let zero = row.zero_bits();
        let vectors = if row.vector() { ", vectors" } else { "" };
        if row.long() {
            println!(out; "format {number:02x}: zero {zero:016x}, 64 bits{vectors}")?;
        } else if zero == 0xFFFF_FFFF && !row.vector() {
            others = others.saturating_add(1);
        }
    }
    println!(out; "formats of 32 bits, no vectors, zero 00000000ffffffff: {others}")
}
