// Jobs that are run in one call and cut into calls of one step, side by side.
use crate::words;
use fields::bytes::{self, WORD};
use runs::calls::Outcome;
use runs::records::Record;
use runs::{answers, calls};
use std::io;

const EXIT: u64 = 0x0900_0000_0000_0000;

// What a run is lent.
#[derive(Clone, Copy)]
struct Lent {
    m: [u8; 64],
    registers: [u64; 256],
}

impl Lent {
    // The words from 4000 on, and what registers hold.
    fn new(given: &[u64], values: &[(u8, u64)]) -> Lent {
        let mut m = [0; 64];
        let mut registers = [0; 256];
        words::put(&mut m, given);
        words::hold(&mut registers, values);
        Lent { m, registers }
    }

    fn run(&mut self, rec: Record, budget: u32) -> Outcome {
        calls::run(&mut self.m, &mut self.registers, rec, budget)
    }
}

// The answer's number, the steps and P.
fn tell(out: &impl Print, what: &str, r: Outcome) -> io::Result<()> {
    print!(out;
        "{what}: answer {}, steps {}",
        answers::number(r.answer),
        r.steps
    )?;
    println!(out; ", P {:x}, items {}", r.rec.p, r.rec.items)
}

// At 4000 a vector add of words, then exit. A has the inflow at 4080, B and C the storage at 4100: the result replaces its own source.
fn reservoir() -> Lent {
    Lent::new(
        &[0x8300_0010_0011_0011, EXIT, 5, 7, 100, 200],
        &[(0x10, 0x0002_0000_0000_4080), (0x11, 0x0002_0000_0000_4100)],
    )
}

fn show(out: &impl Print, job: &Lent) -> io::Result<()> {
    println!(out; "storage 0: {:016x}", bytes::read::<WORD>(&job.m, 32))?;
    println!(out; "storage 1: {:016x}", bytes::read::<WORD>(&job.m, 40))
}

// The inflow is added once, however the run is cut.
pub fn reservoir_in_one_call(out: &impl Print) -> io::Result<()> {
    let mut job = reservoir();
    let r = job.run(Record::between(0x4000, 0), 10);
    tell(out, "reservoir, one call", r)?;
    show(out, &job)
}

pub fn reservoir_cut(out: &impl Print) -> io::Result<()> {
    let mut job = reservoir();
    let first = job.run(Record::between(0x4000, 0), 1);
    tell(out, "reservoir, first step", first)?;
    show(out, &job)?;
    let second = job.run(first.rec, 1);
    tell(out, "reservoir, second step", second)?;
    let third = job.run(second.rec, 8);
    tell(out, "reservoir, the rest", third)?;
    show(out, &job)
}

// A vector transmit stores zeros over its own word; what was fetched goes on.
pub fn over_its_own_word(out: &impl Print) -> io::Result<()> {
    let mut job = Lent::new(
        &[0x9800_0010_0000_0011, 0x9800_0010_0000_0011, EXIT],
        &[(0x10, 0x0002_0000_0000_4100), (0x11, 0x0002_0000_0000_4000)],
    );
    let first = job.run(Record::between(0x4000, 0), 1);
    tell(out, "own word, first step", first)?;
    println!(out; "held: {:016x}", first.rec.word)?;
    println!(out; "at 4000: {:016x}", bytes::read::<WORD>(&job.m, 0))?;
    let rest = job.run(first.rec, 9);
    tell(out, "own word, the rest", rest)
}

// Example 15: "AB" to five bytes, filled with 2E.
fn string() -> Lent {
    Lent::new(
        &[0xF800_0010_002E_0011, EXIT, 0x4142_0000_0000_0000],
        &[(0x10, 0x0002_0000_0000_4080), (0x11, 0x0005_0000_0000_40C0)],
    )
}

// The move is done; and what is refused changes nothing.
pub fn move_and_refusals(out: &impl Print) -> io::Result<()> {
    let mut job = string();
    let start = Record::between(0x4000, 0);
    tell(out, "example 15", job.run(start, 9))?;
    println!(out; "moved: {:016x}", bytes::read::<WORD>(&job.m, 24))?;
    job.registers[0x11] = 0x0005_0000_0000_41E0;
    tell(out, "past the end", job.run(start, 9))?;
    job.registers[0x11] = 0x0005_0000_0000_4088;
    tell(out, "over its source", job.run(start, 9))?;
    for (what, p, budget) in [
        ("P in the registers", 0x20, 9),
        ("P not a multiple of 32", 0x4001, 9),
        ("no budget", 0x4000, 0),
    ] {
        tell(out, what, job.run(Record::between(p, 0), budget))?;
    }
    Ok(())
}
