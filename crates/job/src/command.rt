// The words of the command line: run BUDGET, step, list, list COUNT.
use crate::faults::{CommandFault, NumberFault};
use crate::scan;
use std::env::{Env, FillError};

// How many instructions `list` shows where it is not said.
const LISTED: u32 = 32;

#[derive(Clone, Copy)]
pub enum Command {
    Run(u32),
    Step,
    List(u32),
}

// A decimal number of 32 bits.
fn count_of(word: &[u8]) -> Result<u32, CommandFault> {
    let number = scan::decimal(word)?;
    u32::try_from(number).map_err(|_| CommandFault::Number(NumberFault::Large))
}

// The second word, as a number. Its place is fixed, since there is no heap: none has more than 64 digits.
fn second(env: &impl Env) -> Result<u32, CommandFault> {
    let mut word = [0; 64];
    match env.arg(2, &mut word) {
        Ok(n) => count_of(&word[..n]),
        Err(FillError::NotPresent) => Err(CommandFault::Number(NumberFault::Missing)),
        Err(FillError::TooLong) => Err(CommandFault::Number(NumberFault::Large)),
    }
}

fn named(env: &impl Env, name: &[u8], words: usize) -> Result<Command, CommandFault> {
    if 3 < words {
        return Err(CommandFault::WordsLeft);
    }
    match name {
        b"run" => Ok(Command::Run(second(env)?)),
        b"step" if words == 2 => Ok(Command::Step),
        b"step" => Err(CommandFault::WordsLeft),
        b"list" if words == 2 => Ok(Command::List(LISTED)),
        b"list" => Ok(Command::List(second(env)?)),
        _ => Err(CommandFault::NoSuch),
    }
}

// How many words the command line has, the program's name among them.
fn arg_count(env: &impl Env) -> usize {
    for i in 0..usize::MAX {
        if let Err(FillError::NotPresent) = env.arg(i, &mut []) {
            return i;
        }
    }
    usize::MAX
}

// What the program was asked to do. The place for the command's name is fixed, since there is no heap: none is longer.
pub fn given(env: &impl Env) -> Result<Command, CommandFault> {
    let mut name = [0; 64];
    let n = env.arg(1, &mut name).unwrap_or(0);
    named(env, &name[..n], arg_count(env))
}
