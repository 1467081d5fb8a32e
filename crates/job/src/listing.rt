// Instructions in words, judged with the registers as they stand.
use crate::answers::InWords;
use crate::jobs::Job;
use crate::names;
use fields::units::{BitAddress, ByteCount};
use instructions::fetch::{fetch, is_long, length_of};
use instructions::instruction::{Instruction, by_items};
use instructions::operands::code_in;
use instructions::verdict::Stop;
use instructions::words::Refusal;
use runs::answers::Answer;
use std::{fmt, io};

// A word of an instruction: the name of its code, and its designators where they are not 00.
#[derive(Clone, Copy)]
pub struct Spelled(pub u64);

impl fmt::Display for Spelled {
    fn fmt<W: fmt::Write>(&self, f: &mut fmt::Formatter<W>) -> fmt::Result {
        let word = self.0;
        write!(f, "{}", names::of_code(code_in(word)))?;
        let designators = if is_long(word) { "GXAYBZC" } else { "RST" };
        let bytes = word.to_be_bytes();
        for (name, value) in designators.chars().zip(&bytes[1..]) {
            if *value != 0 {
                write!(f, ", {name} {value:02x}")?;
            }
        }
        Ok(())
    }
}

// A word in hex: 32 bits or 64.
fn digits_of(out: &impl Print, word: u64) -> io::Result<()> {
    if is_long(word) {
        print!(out; "  {word:016x}")
    } else {
        print!(out; "  {:08x}        ", word >> 32)
    }
}

// The instruction on a line of its own, with the answer that its checks give, or how many items it has.
fn line(out: &impl Print, it: Instruction, verdict: Result<(), Stop>) -> io::Result<()> {
    print!(out; "{:04x}", it.p.0)?;
    digits_of(out, it.word)?;
    print!(out; "  {}", Spelled(it.word))?;
    match verdict {
        Err(stop) => println!(out; "; {}", InWords(Answer::from(stop))),
        Ok(()) if by_items(it.word) => println!(out; "; items {}", it.count()),
        Ok(()) => println!(out),
    }
}

// The instructions from P on, as many as are asked for, up to the first place where none stands: no word, or one of which nobody knows how long it is.
pub fn from_p(out: &impl Print, job: &Job, most: u32) -> io::Result<()> {
    let mut at = job.rec.p;
    for _ in 0..most {
        let p = BitAddress(at);
        let it = job.instruction(p, fetch(job.memory(), p));
        let verdict = it.verdict(ByteCount(job.length.bytes as u64));
        line(out, it, verdict)?;
        if let Err(Stop::Refused(Refusal::NotThere | Refusal::NotListed)) = verdict {
            return Ok(());
        }
        at = at.wrapping_add(length_of(it.word).0);
    }
    Ok(())
}
