// A job: its memory, registers and record.
ghost use Rattle.std.specs.Prelude.{◌≡◌, ◌≤◌, length, take, IfOk, Some};
ghost use Rattle.runs.specs.Steps.{lent_at};
ghost use Rattle.runs.specs.Calls.{leaves, run};

use crate::decks::{Deck, Length};
use crate::faults::DeckFault;
use fields::bytes::{self, WORD};
use fields::units::BitAddress;
use instructions::instruction::Instruction;
use instructions::operands::gather;
use runs::calls;
use runs::calls::Outcome;
use runs::records::Record;

// The memory has room for the longest that may be lent, since there is no heap.
#[derive(Clone, Copy)]
pub struct Job {
    memory: [u8; 65536],
    pub length: Length,
    pub registers: [u64; 256],
    pub rec: Record,
}

// At most so many steps over the first bytes of the memory.
fn run_lent(
    memory: &mut [u8],
    bytes: usize,
    registers: &mut [u64],
    rec: Record,
    budget: u32,
) -> Outcome
    requires { bytes ≤ length memory.old }
    ensures { leaves (lent_at (take bytes memory.new) registers.new) result ≡ run budget (lent_at (take bytes memory.old) registers.old rec) }
{
    calls::run(&mut memory[..bytes], registers, rec, budget)
}

// What a deck has to say: how long the memory is, and where the job stands.
#[derive(Clone, Copy)]
pub struct Start {
    pub length: Length,
    pub p: u64,
}

impl TryFrom<&Deck> for Start {
    type Error = DeckFault<'static>;

    ghost try_from_gives = { λ deck r. IfOk r (λ start. (deck.now.memory ≡ Some start.length) × (deck.now.p ≡ Some start.p)) };

    fn try_from(deck: &Deck) -> Result<Start, DeckFault<'static>> {
        let length = deck.memory.ok_or(DeckFault::NoMemory)?;
        let p = deck.p.ok_or(DeckFault::NoP)?;
        Ok(Start { length, p })
    }
}

impl Job {
    // The job of a deck, but for its words, which are put where the job stands: a copy of it is longer than most decks.
    pub fn of(start: Start, deck: &Deck) -> Job
        ensures length { result.length ≡ start.length }
        ensures p { result.rec.p ≡ start.p }
    {
        Job {
            memory: [0; 65536],
            length: start.length,
            registers: deck.registers.map(|value| value.unwrap_or(0)),
            rec: Record {
                p: start.p,
                mark: deck.mark.unwrap_or(0),
                word: deck.held.unwrap_or(0),
                items: deck.items.unwrap_or(0),
                flags: deck.flags.unwrap_or(0),
            },
        }
    }

    // The words of a deck to the memory.
    pub fn fill(&mut self, deck: &Deck)
        ensures length { self.new.length ≡ self.old.length }
        ensures registers { self.new.registers ≡ self.old.registers }
        ensures rec { self.new.rec ≡ self.old.rec }
    {
        for (place, word) in self.memory.chunks_exact_mut(8).zip(&deck.words) {
            bytes::put::<WORD>(place, 0, word.unwrap_or(0));
        }
    }

    // The memory that is lent.
    pub fn memory(&self) -> &[u8]
        ensures lent { result.now ≡ take self.now.length.bytes self.now.memory }
        ensures length { length result.now ≡ self.now.length.bytes }
    {
        &self.memory[..self.length.bytes]
    }

    // An instruction, with the registers as they stand.
    pub fn instruction(&self, p: BitAddress, word: u64) -> Instruction {
        let operands = gather(word, &self.registers);
        Instruction { p, word, operands }
    }

    // At most so many steps: what the call says, and the job afterwards in its place.
    pub fn run(&mut self, budget: u32) -> Outcome
        ensures ran { leaves (lent_at (take self.new.length.bytes self.new.memory) self.new.registers) result
            ≡ run budget (lent_at (take self.old.length.bytes self.old.memory) self.old.registers self.old.rec) }
        ensures length { self.new.length ≡ self.old.length }
        ensures kept { self.new.rec ≡ result.rec }
    {
        let Job {
            memory,
            length,
            registers,
            rec,
        } = self;
        let outcome = run_lent(memory, length.bytes, registers, *rec, budget);
        *rec = outcome.rec;
        outcome
    }
}
