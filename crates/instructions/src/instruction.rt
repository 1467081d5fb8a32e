// An instruction as the layer above sees it: whether it goes by items, how many, their work, and the one step of any other.
ghost use Rattle.std.specs.Prelude.{◌≡◌, false, length};
ghost use Rattle.instructions.specs.Fetch.{length_of};
ghost use Rattle.instructions.specs.Verdict.{verdict_of};
ghost use Rattle.instructions.specs.Effects.{next_p};
ghost use Rattle.instructions.specs.Instruction.{by_items, count_of, Workable, WorksTo, ActsTo};

use crate::fetch::length_of;
use crate::items::Stretch;
use crate::layout::{length_in, runs};
use crate::operands::{Operands, code_in};
use crate::{effects, table, works};
use fields::gathers::Rule;
use fields::units::BitAddress;

// The word at P, and what the registers supply that it names.
#[derive(Clone, Copy)]
pub struct Instruction {
    pub p: BitAddress,
    pub word: u64,
    pub operands: Operands,
}

// The next P, and the flags.
#[derive(Clone, Copy)]
pub struct Acted {
    pub p: BitAddress,
    pub flags: u64,
}

// A vector, bit or move instruction.
pub fn by_items(word: u64) -> bool
    ensures { result ≡ by_items word }
{
    match table::find(code_in(word)) {
        None => false,
        Some(row) => row.has_items(),
    }
}

// By the code, the machine's own number: a match is a jump. A table of functions would be called through pointers, one for each code, and say no more.
impl Instruction {
    // How many items it has. The lengths say so, without the plan.
    pub fn count(self) -> u64
        ensures { result ≡ count_of self.word self.operands }
    {
        let o = self.operands;
        match code_in(self.word) {
            0x14 => runs(o).items(Rule::Compress).0,
            0x15 => runs(o).items(Rule::Merge).0,
            0x16 => runs(o).items(Rule::Mask).0,
            _ => length_in(o.c) as u64,
        }
    }

    // Items from, .., from + count - 1 of an instruction that no check refuses. Gives the flags. Three numbers, which its one caller has apart: a Stretch
    // made there would be no plainer.
    pub fn work(self, memory: &mut [u8], from: u64, count: u64, flags: u64) -> u64
        requires { Workable self.p.0 self.word self.operands (length memory.old) from count }
        ensures { WorksTo self.word self.operands from count memory.old flags memory.new result }
    {
        if count == 0 {
            return flags;
        }
        let part = Stretch {
            from: from as usize,
            count: count as usize,
            flags,
        };
        let code = code_in(self.word);
        match code {
            0x14 => works::bits(memory, self.bit_plan(Rule::Compress), part),
            0x15 => works::bits(memory, self.bit_plan(Rule::Merge), part),
            0x16 => works::bits(memory, self.bit_plan(Rule::Mask), part),
            0xF8 => works::moved(memory, self.move_plan(), part),
            _ => works::vector(memory, code as u64, self.vector_plan(), part),
        }
    }

    // The next P. How long the word is matters only where control goes on.
    fn next_p(self, target: Option<BitAddress>) -> BitAddress
        ensures { result.0 ≡ next_p self.p.0 (length_of self.word) target }
    {
        match target {
            None => self.p.plus(length_of(self.word)),
            Some(to) => to,
        }
    }

    // The one step of any other instruction that no check refuses.
    pub fn act(self, memory: &mut [u8], registers: &mut [u64], flags: u64) -> Acted
        requires { (verdict_of self.p.0 self.word self.operands (length memory.old) ≡ 0) × (by_items self.word ≡ false) × (length registers.old ≡ 256) }
        ensures { ActsTo self.p.0 self.word self.operands memory.old registers.old flags memory.new registers.new result.p.0 result.flags }
    {
        let u = self.outcome(&memory[..]);
        effects::apply(u.effect, memory, registers);
        Acted {
            p: self.next_p(u.target),
            flags: flags | u.flags,
        }
    }
}
