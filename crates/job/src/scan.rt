// The words of a line, and the numbers that they are.
ghost use Rattle.std.specs.Prelude.{◌≡◌, ◌≤◌, ℕ, List, ◌++◌, length, IfSome};
ghost use Rattle.std.specs.Iterator.{at_most};

use crate::faults::NumberFault;

// Another digit still fits behind it.
const MOST: u64 = 0x0FFF_FFFF_FFFF_FFFF;

// What is left of a line, word by word; no word is empty.
#[derive(Drop)]
pub struct Words<'a>(&'a [u8]);

impl<'a> Words<'a> {
    // The words of a line: a comment begins with #.
    pub fn of(line: &'a [u8]) -> Words<'a> {
        let end = line.iter().position(|b| *b == b'#').unwrap_or(line.len());
        Words(&line[..end])
    }
}

impl<'a> Iterator for Words<'a> {
    type Item = &'a [u8];

    // The word stands in the line, and what is left of the line behind it.
    ghost next_gives = { λ s r t. IfSome r (λ word. (before : List ℕ) × (s.0.now ≡ before ++ (word.now ++ t.0.now))) };

    ghost remaining = { λ s. at_most (length s.0.now) };

    fn next(&mut self) -> Option<&'a [u8]> {
        let line = self.0;
        let start = line.iter().position(|b| !is_space(*b))?;
        let rest = &line[start + 1..];
        let more = rest.iter().position(|b| is_space(*b)).unwrap_or(rest.len());
        let end = start + 1 + more;
        self.0 = &line[end..];
        Some(&line[start..end])
    }
}

fn is_space(b: u8) -> bool {
    matches!(b, b' ' | b'\t' | b'\r')
}

// A number in the given base; digits may be set apart by _.
fn number(word: &[u8], base: u32) -> Result<u64, NumberFault>
    requires { (2 ≤ base) × (base ≤ 16) }
{
    match word {
        [] => return Err(NumberFault::Missing),
        [b'_', ..] => return Err(NumberFault::Odd),
        _ => {}
    }
    let mut value = 0;
    for b in word {
        if *b != b'_' {
            let digit = char::from(*b).to_digit(base).ok_or(NumberFault::Odd)?;
            if MOST < value {
                return Err(NumberFault::Large);
            }
            value = value * u64::from(base) + u64::from(digit);
        }
    }
    Ok(value)
}

// The two bases that there are. Their callers are asked nothing of a base, as those of `number` are.
pub fn hex(word: &[u8]) -> Result<u64, NumberFault> {
    number(word, 16)
}

pub fn decimal(word: &[u8]) -> Result<u64, NumberFault> {
    number(word, 10)
}
