// What is wrong with a case, and what else ends the reading of cases.
use std::{fmt, io};

// Why a case is not answered. Nothing after it is read.
#[derive(Clone, Copy, Debug)]
pub enum Fault {
    Header,
    Size,
    Count,
    Budget,
    Part,
    Contents,
    Result,
}

impl fmt::Display for Fault {
    fn fmt<W: fmt::Write>(&self, f: &mut fmt::Formatter<W>) -> fmt::Result {
        f.write_str(match self {
            Fault::Header => "the stream ends in its header",
            Fault::Size => "its memory has more than 65536 bytes",
            Fault::Count => "it has more than 512 registers",
            Fault::Budget => "its budget is not below 2^32",
            Fault::Part => "its part is not below 2^32",
            Fault::Contents => "the stream ends in its registers or its memory",
            Fault::Result => "its result cannot be written",
        })
    }
}

// Why there is no further case.
#[derive(Debug, Drop)]
pub enum Stop {
    End,
    Refused(Fault),
    Failed(io::Error),
}

impl From<Fault> for Stop {
    fn from(fault: Fault) -> Stop {
        Stop::Refused(fault)
    }
}

impl From<io::Error> for Stop {
    fn from(error: io::Error) -> Stop {
        Stop::Failed(error)
    }
}
