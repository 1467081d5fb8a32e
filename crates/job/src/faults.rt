// What can be wrong with a command or a deck, in words on standard error. Nothing is run then.
use std::error::Error;
use std::{fmt, io};

// Why a word is no number.
#[derive(Clone, Copy, Debug)]
pub enum NumberFault {
    Missing, // no digit
    Odd, // a byte that is no digit
    Large, // more than 64 bits, or more than 60 in decimal
}

#[derive(Clone, Copy, Debug)]
pub enum CommandFault {
    NoSuch,
    Number(NumberFault),
    WordsLeft,
}

#[derive(Clone, Copy, Debug)]
pub enum LineFault {
    NoSuchName,
    Number(NumberFault),
    WordsLeft,
    SaidTwice,
    NoSuchRegister,
    MemoryLong,
    MemoryFirst,
    AddressOdd,
    AddressLow,
    AddressHigh,
}

// What is wrong with a deck, or with one line of it.
#[derive(Clone, Copy, Debug)]
pub enum DeckFault<'a> {
    Long,
    NoMemory,
    NoP,
    Line {
        number: usize,
        fault: LineFault,
        line: &'a [u8],
    },
}

// Either has a `From` of its own, as `?` asks.
impl From<NumberFault> for CommandFault {
    fn from(fault: NumberFault) -> CommandFault {
        CommandFault::Number(fault)
    }
}

impl From<NumberFault> for LineFault {
    fn from(fault: NumberFault) -> LineFault {
        LineFault::Number(fault)
    }
}

impl fmt::Display for CommandFault {
    fn fmt<W: fmt::Write>(&self, f: &mut fmt::Formatter<W>) -> fmt::Result {
        f.write_str(match self {
            CommandFault::NoSuch =>
                "no such command; there are: run BUDGET, step, list, list COUNT",
            CommandFault::Number(NumberFault::Missing) => "run takes a number, the budget",
            CommandFault::Number(NumberFault::Odd) => "the budget or count is a decimal number",
            CommandFault::Number(NumberFault::Large) =>
                "the budget or count has 32 bits: at most 4294967295",
            CommandFault::WordsLeft => "a word too many",
        })
    }
}

impl fmt::Display for LineFault {
    fn fmt<W: fmt::Write>(&self, f: &mut fmt::Formatter<W>) -> fmt::Result {
        f.write_str(match self {
            LineFault::NoSuchName =>
                "the first word is none of memory, p, mark, held, items, flags, register, word",
            LineFault::Number(NumberFault::Missing) => "a number is missing",
            LineFault::Number(NumberFault::Odd) =>
                "a number is not in hex: digits 0 to 9 and A to F, with _ between them",
            LineFault::Number(NumberFault::Large) => "a number has more than 64 bits",
            LineFault::WordsLeft =>
                "something stands behind the last number; a comment begins with #",
            LineFault::SaidTwice => "an earlier line has said this",
            LineFault::NoSuchRegister => "registers are 0 to FF",
            LineFault::MemoryLong => "a memory has at most 10000 bytes (hex)",
            LineFault::MemoryFirst => "the line 'memory' has to come before the first word",
            LineFault::AddressOdd => "a word's address is a multiple of 40 (hex, in bits)",
            LineFault::AddressLow => "memory begins at address 4000",
            LineFault::AddressHigh =>
                "the word does not lie in the memory, whose length the line 'memory' says",
        })
    }
}

impl fmt::Display for DeckFault<'_> {
    fn fmt<W: fmt::Write>(&self, f: &mut fmt::Formatter<W>) -> fmt::Result {
        match self {
            DeckFault::Long => write!(f, "bad deck: it has more than 262143 bytes"),
            DeckFault::NoMemory => write!(
                f,
                "bad deck: no line says 'memory' and the memory's length"
            ),
            DeckFault::NoP => write!(f, "bad deck: no line says 'p' and where the job stands"),
            DeckFault::Line { number, fault, .. } => write!(f, "bad deck, line {number}: {fault}"),
        }
    }
}

impl Error for CommandFault {}

impl Error for LineFault {}

impl Error for DeckFault<'_> {}

impl DeckFault<'_> {
    // What is wrong, and the line as it stands: its bytes need not be text.
    pub fn tell(self, err: &impl Print) -> io::Result<()> {
        err.println(self)?;
        if let DeckFault::Line { line, .. } = self {
            err.write_all(b"    ")?;
            err.write_all(line)?;
            err.write_all(b"\n")?;
        }
        Ok(())
    }
}
