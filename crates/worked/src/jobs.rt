// One instruction or two at 4000, exit behind them, and a line that says what came out.
use fields::bytes::WORD;
use fields::memory;
use fields::units::BitAddress;
use runs::answers::Answer;
use runs::calls::Outcome;
use runs::records::Record;
use runs::{answers, calls};
use std::io;

const EXIT: u64 = 0x0900_0000_0000_0000;

// Words to the place, as many as there are and as it has room for: the library's methods, for which a crate that programs share would be no plainer.
pub fn put(place: &mut [u8], words: &[u64]) {
    for (bytes, word) in place.as_chunks_mut::<8>().0.iter_mut().zip(words) {
        *bytes = word.to_be_bytes();
    }
}

// A line's end: the flags where there are some, and the answer where it is another than exit.
fn end(out: &impl Print, r: Outcome) -> io::Result<()> {
    if 0 < r.rec.flags {
        print!(out; " flags {:06x}", r.rec.flags)?;
    }
    if r.answer != Answer::Exit {
        print!(out; " answer {}", answers::number(r.answer))?;
    }
    println!(out)
}

// A case: the word, and where the case stands.
#[derive(Clone, Copy)]
pub struct Case(pub u64, pub &'static str);

impl Case {
    // A line's beginning: the code in the left 8 bits of the word, and the place.
    pub fn begin(self, out: &impl Print) -> io::Result<()> {
        let Case(word, what) = self;
        print!(out; "{:02x} {what}:", word >> 56)
    }

    // Registers 10 and 11 are the operands, and register t is shown.
    pub fn on_registers(self, out: &impl Print, operands: [u64; 2], t: u8) -> io::Result<()> {
        let mut m = [0u8; 16];
        put(&mut m, &[self.0, EXIT]);
        let mut registers = [0u64; 256];
        registers[0x10] = operands[0];
        registers[0x11] = operands[1];
        let r = calls::run(&mut m, &mut registers, Record::between(0x4000, 0), 9);
        self.begin(out)?;
        print!(out; " {:016x}", registers[t as usize])?;
        end(out, r)
    }

    // Registers 10, 11 and 12 are the descriptors of the fields. The sources are two words at 4080 and two at 4100; the words at 4180 and 41C0 are shown.
    pub fn on_fields(
        self,
        out: &impl Print,
        fields: [u64; 3],
        sources: [u64; 4],
    ) -> io::Result<()> {
        let [a, next_a, b, next_b] = sources;
        let mut m = [0x77u8; 64];
        put(&mut m, &[self.0, EXIT, a, next_a, b, next_b]);
        let mut registers = [0u64; 256];
        registers[0x10] = fields[0];
        registers[0x11] = fields[1];
        registers[0x12] = fields[2];
        let r = calls::run(&mut m, &mut registers, Record::between(0x4000, 0), 99);
        self.begin(out)?;
        let first = memory::read::<WORD>(&m, BitAddress(0x4180));
        let second = memory::read::<WORD>(&m, BitAddress(0x41C0));
        print!(out; " {first:016x} {second:016x}")?;
        end(out, r)
    }
}

// Each case on its operands, with register 12 shown.
pub fn on_registers(out: &impl Print, cases: &[(Case, [u64; 2])]) -> io::Result<()> {
    for (case, operands) in cases {
        case.on_registers(out, *operands, 0x12)?;
    }
    Ok(())
}
