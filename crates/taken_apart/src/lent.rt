// What a run is lent, by value, and the lines that say how it stands.
use runs::answers;
use runs::answers::Answer;
use runs::calls::Outcome;
use runs::control::Control;
use runs::records::Record;
use std::io;

#[derive(Clone, Copy)]
pub struct Lent {
    pub m: [u8; 64],
    pub registers: [u64; 256],
}

impl Lent {
    // The words from 4000 on, and what registers hold; all others are zero.
    pub fn new(words: &[u64], values: &[(u8, u64)]) -> Lent {
        Lent {
            m: memory(words),
            registers: registers(values),
        }
    }

    fn memory(&self, out: &impl Print) -> io::Result<()> {
        print!(out; "  memory")?;
        for bytes in self.m.as_chunks::<8>().0 {
            print!(out; " {:016x}", u64::from_be_bytes(*bytes))?;
        }
        println!(out)
    }

    // All of memory, and the registers that the jobs write.
    pub fn show(&self, out: &impl Print) -> io::Result<()> {
        self.memory(out)?;
        print!(out; "  registers 30 to 33")?;
        for register in &self.registers[0x30..0x34] {
            print!(out; " {register:016x}")?;
        }
        println!(out)
    }
}

// The library's methods, for which a crate that programs share would be no plainer.
fn memory(words: &[u64]) -> [u8; 64] {
    let mut m = [0; 64];
    for (bytes, word) in m.as_chunks_mut::<8>().0.iter_mut().zip(words) {
        *bytes = word.to_be_bytes();
    }
    m
}

fn registers(values: &[(u8, u64)]) -> [u64; 256] {
    let mut registers = [0; 256];
    for (register, value) in values {
        registers[*register as usize] = *value;
    }
    registers
}

// What is asked of a run, and its name.
#[derive(Clone, Copy)]
pub struct Asked {
    pub what: &'static str,
    pub rec: Record,
    pub budget: u32,
}

impl Asked {
    // A run that begins between two instructions, at p.
    pub fn at(p: u64, what: &'static str, budget: u32) -> Asked {
        let rec = Record::between(p, 0);
        Asked { what, rec, budget }
    }

    pub fn heading(self, out: &impl Print) -> io::Result<()> {
        let Asked { what, budget, .. } = self;
        println!(out; "{what}, budget {budget}")
    }
}

// A line: the answer, how many steps, and the record.
fn line(
    out: &impl Print,
    what: &str,
    answer: Answer,
    steps: (&str, u32),
    rec: Record,
) -> io::Result<()> {
    let number = answers::number(answer);
    let (name, count) = steps;
    print!(out; "{what}: answer {number}, {name} {count}, P {:x}", rec.p)?;
    println!(out;
        ", mark {}, held {:016x}, items {}, flags {:06x}",
        rec.mark, rec.word, rec.items, rec.flags
    )
}

// What a run leaves, and how it stands under way, are types of their own.
pub fn outcome(out: &impl Print, what: &str, r: Outcome) -> io::Result<()> {
    line(out, what, r.answer, ("steps", r.steps), r.rec)
}

pub fn control(out: &impl Print, what: &str, c: Control) -> io::Result<()> {
    line(out, what, c.answer, ("left", c.left), c.rec)
}
