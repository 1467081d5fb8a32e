// A job's deck, written: what a person or `Deck::read` reads. What is zero is left out, but for the record.
ghost use Rattle.std.specs.Prelude.{◌≤◌, length};

use crate::jobs::Job;
use fields::bytes::{self, WORD};
use std::fmt;

// Registers and words are a loop each: one iterator over both would be a type of its own, with an enum of places, for loops of three lines.
fn registers<W: fmt::Write>(f: &mut fmt::Formatter<W>, values: &[u64; 256]) -> fmt::Result {
    for (k, value) in values.iter().enumerate() {
        if *value != 0 {
            writeln!(f, "register {k:02x} {value:016x}")?;
        }
    }
    Ok(())
}

fn words<W: fmt::Write>(f: &mut fmt::Formatter<W>, memory: &[u8]) -> fmt::Result
    requires { length memory.now ≤ 65536 }
{
    for (k, word) in memory.chunks_exact(8).enumerate() {
        let value = bytes::read::<WORD>(word, 0);
        if value != 0 {
            let address = 0x4000 + 0x40 * k;
            writeln!(f, "word {address:04x} {value:016x}")?;
        }
    }
    Ok(())
}

impl fmt::Display for Job {
    fn fmt<W: fmt::Write>(&self, f: &mut fmt::Formatter<W>) -> fmt::Result {
        let rec = self.rec;
        let length = self.length.bytes;
        writeln!(f, "memory {length:x}")?;
        writeln!(f, "p {:x}", rec.p)?;
        writeln!(f, "mark {:x}", rec.mark)?;
        writeln!(f, "held {:016x}", rec.word)?;
        writeln!(f, "items {:x}", rec.items)?;
        writeln!(f, "flags {:x}", rec.flags)?;
        registers(f, &self.registers)?;
        words(f, self.memory())
    }
}
