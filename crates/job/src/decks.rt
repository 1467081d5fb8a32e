// A deck: the text of a job's state. A line is a name and its numbers in hex; # begins a comment. What no line says is zero, but `memory` and `p` have to be
// there.
//     memory LENGTH     in bytes
//     p ADDRESS         where the job stands
//     mark N   held WORD   items N   flags WORD
//     register NUMBER VALUE
//     word ADDRESS VALUE
ghost use Rattle.std.specs.Prelude.{◌≡◌, ◌≤◌, IfOk};

use crate::faults::{DeckFault, LineFault, NumberFault};
use crate::scan;
use crate::scan::Words;

// How many bytes a memory has: at most the 65,536 that may be lent (§1.4).
#[derive(Clone, Copy)]
pub struct Length {
    pub bytes: usize,
    ghost fits: { bytes ≤ 65536 },
}

impl TryFrom<u64> for Length {
    type Error = LineFault;

    ghost try_from_gives = { λ bytes r. IfOk r (λ length. length.bytes ≡ bytes) };

    fn try_from(bytes: u64) -> Result<Length, LineFault> {
        if 0x1_0000 < bytes {
            return Err(LineFault::MemoryLong);
        }
        Ok(Length {
            bytes: bytes as usize,
        })
    }
}

// One byte more than the text of a deck may have.
pub const ROOM: usize = 262144;

// What the lines of a deck have said; the words stand by their order in memory.
#[derive(Clone, Copy)]
pub struct Deck {
    pub memory: Option<Length>,
    pub p: Option<u64>,
    pub mark: Option<u64>,
    pub held: Option<u64>,
    pub items: Option<u64>,
    pub flags: Option<u64>,
    pub registers: [Option<u64>; 256],
    pub words: [Option<u64>; 8192],
}

// The numbers behind a name, and nothing behind them.
fn numbers<const N: usize>(words: &mut Words<'_>) -> Result<[u64; N], LineFault> {
    let mut values = [0; N];
    for value in values.iter_mut() {
        let word = words.next().ok_or(NumberFault::Missing)?;
        *value = scan::hex(word)?;
    }
    match words.next() {
        None => Ok(values),
        Some(_) => Err(LineFault::WordsLeft),
    }
}

fn number(words: &mut Words<'_>) -> Result<u64, LineFault> {
    let [value] = numbers::<1>(words)?;
    Ok(value)
}

// What may be said once is said.
fn once(place: &mut Option<u64>, value: u64) -> Result<(), LineFault> {
    match place.replace(value) {
        None => Ok(()),
        Some(_) => Err(LineFault::SaidTwice),
    }
}

impl Deck {
    // A deck of which no line has been read.
    pub fn empty() -> Deck {
        Deck {
            memory: None,
            p: None,
            mark: None,
            held: None,
            items: None,
            flags: None,
            registers: [None; 256],
            words: [None; 8192],
        }
    }

    fn memory(&mut self, bytes: u64) -> Result<(), LineFault> {
        if self.memory.is_some() {
            return Err(LineFault::SaidTwice);
        }
        self.memory = Some(Length::try_from(bytes)?);
        Ok(())
    }

    fn register(&mut self, [number, value]: [u64; 2]) -> Result<(), LineFault> {
        if 255 < number {
            return Err(LineFault::NoSuchRegister);
        }
        once(&mut self.registers[number as usize], value)
    }

    fn word(&mut self, [address, value]: [u64; 2]) -> Result<(), LineFault> {
        let Some(length) = self.memory else {
            return Err(LineFault::MemoryFirst);
        };
        if address % 0x40 != 0 {
            return Err(LineFault::AddressOdd);
        }
        if address < 0x4000 {
            return Err(LineFault::AddressLow);
        }
        let word = (address - 0x4000) / 0x40;
        if (length.bytes as u64) / 8 <= word {
            return Err(LineFault::AddressHigh);
        }
        once(&mut self.words[word as usize], value)
    }

    // A line more: its name and numbers, or nothing.
    fn line(&mut self, line: &[u8]) -> Result<(), LineFault> {
        let mut words = Words::of(line);
        let Some(name) = words.next() else {
            return Ok(());
        };
        match name {
            b"memory" => self.memory(number(&mut words)?),
            b"p" => once(&mut self.p, number(&mut words)?),
            b"mark" => once(&mut self.mark, number(&mut words)?),
            b"held" => once(&mut self.held, number(&mut words)?),
            b"items" => once(&mut self.items, number(&mut words)?),
            b"flags" => once(&mut self.flags, number(&mut words)?),
            b"register" => self.register(numbers(&mut words)?),
            b"word" => self.word(numbers(&mut words)?),
            _ => Err(LineFault::NoSuchName),
        }
    }

    // What the lines of a text say, up to the first that is wrong.
    pub fn read<'a>(&mut self, text: &'a [u8]) -> Result<(), DeckFault<'a>> {
        if ROOM <= text.len() {
            return Err(DeckFault::Long);
        }
        for (k, line) in text.split(|b| *b == b'\n').enumerate() {
            if let Err(fault) = self.line(line) {
                let number = k + 1;
                return Err(DeckFault::Line {
                    number,
                    fault,
                    line,
                });
            }
        }
        Ok(())
    }
}
