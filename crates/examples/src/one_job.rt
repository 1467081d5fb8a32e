// One instruction at 4000 and an exit behind it, in a memory and with registers that serve every code; a line says what came out.
use crate::codes::Code;
use crate::words;
use runs::calls::Outcome;
use runs::records::Record;
use runs::{answers, calls};
use std::io;

const EXIT: u64 = 0x0900_0000_0000_0000;

// The words of the memory: the instruction has the place of the first. Register 23 names the control bits at 4280, register 1E the exit at 42A0.
const WORDS: [u64; 16] = [
    0,
    EXIT,
    0x0000_0000_0100_0000, // 4080: 2^24
    0xFFFF_FFFF_FFFF_FFFD, // -3 / 2
    0x0058_0000_0000_0001, // too large to contract
    0x7123_4567_89AB_CDEF, // indefinite
    0x0000_8000_0000_0000, // the least coefficient
    0x8000_0000_0000_0001, // 41C0: machine zero
    0xFF77_0000_0000_0001, // too small to contract
    0x0000_0000_0000_00FF, // a shift right by 1
    0xB4C3_0000_0900_0000, // control bits, and an exit
    0x1234_0000_0000_0005, // the word before the results
    0x0000_0000_0000_0000, // 4300: where results go
    0x1111_1111_1111_1111,
    0x2222_2222_2222_2222,
    0x3333_3333_3333_3333,
];

// Registers and what they hold; the others hold zero.
const REGISTERS: [(u8, u64); 25] = [
    (0x10, 0x0000_0000_0100_0000), // 2^24
    (0x11, 0x0012_FFFF_FFFF_FFFF), // a coefficient of -1, and a byte and a word to store
    (0x12, 0xFFFF_FFFF_FFFF_FFFD), // -3 / 2; a count of -3
    (0x14, 0x0057_7FFF_FFFF_FFFF), // the largest to contract, and too large to round
    (0x15, 0xFF77_7FFF_FFFF_FFFF), // too small to contract
    (0x16, 0x7123_4567_89AB_CDEF), // indefinite
    (0x18, 0x0000_0000_0000_4080), // addresses and counts
    (0x19, 0x0000_0000_0000_0003),
    (0x1A, 0x0000_0000_0000_4080),
    (0x1B, 0x0000_0000_0000_0002),
    (0x1C, 0x0000_0000_0000_4300),
    (0x1D, 0x0000_0000_0000_0001),
    (0x1E, 0x0000_0000_0000_42A0), // the target of branches: an exit, and not the word behind the branch
    (0x20, 0x0004_0000_0000_4080), // A
    (0x21, 0x0004_0000_0000_4180), // B
    (0x22, 0x0004_0000_0000_4300), // C
    (0x23, 0x0000_0000_0000_4280), // the control field's base
    (0x24, 0x0004_0000_0000_4300), // C of half words
    (0x25, 0x0002_0000_0000_4080), // R of bits
    (0x26, 0x0001_0000_0000_40C0), // S of bits
    (0x27, 0x0028_0000_0000_4303), // T of bits
    (0x28, 0x0001_0000_0000_0000), // S that stands for zeros
    (0x29, 0x0005_0000_0000_4088), // A of bytes
    (0x2A, 0x000C_0000_0000_4300), // C of bytes
    (0x30, 0xAAAA_AAAA_BBBB_BBBB), // the result, half words 60 and 61
];

// The word at 4000, and a register that holds another value than the table says (register 0 is never read).
#[derive(Clone, Copy)]
pub struct Job {
    word: u64,
    register: u8,
    value: u64,
}

impl Job {
    pub fn plain(word: u64) -> Job {
        Job {
            word,
            register: 0,
            value: 0,
        }
    }

    // 32 bits with R, S and T, and an exit behind them, or 64 bits with G, X, A, Y, B, Z and C.
    pub fn new(code: Code, operands: u64) -> Job {
        let code = code as u64;
        if code < Code::VectorAdd as u64 {
            Job::plain((code << 56) | (operands << 32) | 0x0900_0000)
        } else {
            Job::plain((code << 56) | operands)
        }
    }

    pub fn with(self, register: u8, value: u64) -> Job {
        Job {
            register,
            value,
            ..self
        }
    }

    fn begin(self, out: &impl Print, r: Outcome) -> io::Result<()> {
        let Job {
            word,
            register,
            value,
        } = self;
        print!(out; "{word:016x} {register:02x} {value:016x}")?;
        print!(out; ": answer {} steps {}", answers::number(r.answer), r.steps)?;
        print!(out; " P {:x} flags {:06x}", r.rec.p, r.rec.flags)
    }

    // At most 200 steps from 4000 on; then register 30 and the last four words.
    pub fn tell(self, out: &impl Print) -> io::Result<()> {
        let mut given = WORDS;
        given[0] = self.word;
        let mut m = [0u8; 128];
        words::put(&mut m, &given);
        let mut registers = [0u64; 256];
        words::hold(&mut registers, &REGISTERS);
        registers[self.register as usize] = self.value;
        let r = calls::run(&mut m, &mut registers, Record::between(0x4000, 0), 200);
        self.begin(out, r)?;
        print!(out; " T {:016x} C", registers[0x30])?;
        words::show(out, &m[96..])
    }
}

// The left half of a 64-bit word stands in the last half word of memory, so the word is not all there: 4.
pub fn cut_off(out: &impl Print, code: Code) -> io::Result<()> {
    let mut m = [0u8; 128];
    let mut registers = [0u64; 256];
    let half_word = ((code as u64) << 24) | 0x20;
    words::put(&mut m[120..], &[half_word]);
    let r = calls::run(&mut m, &mut registers, Record::between(0x43E0, 0), 200);
    Job::plain(half_word).begin(out, r)?;
    println!(out)
}
