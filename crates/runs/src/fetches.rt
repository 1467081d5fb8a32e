// The instruction that comes next: fetched at P, or held by the record. Both are inlined: a call of `fetched` made a step of a register instruction 33 machine
// instructions longer, which had 205. That there are 256 registers is asked, as performs.rt says.
ghost use Rattle.std.specs.Prelude.{◌≡◌, length};
ghost use Rattle.runs.specs.Steps.{lent_at};
ghost use Rattle.runs.specs.Private.Inner.{fetched_at, held_in};

use crate::records::Record;
use fields::units::BitAddress;
use instructions::fetch::fetch;
use instructions::instruction::Instruction;
use instructions::operands::gather;

#[inline(always)]
pub fn fetched(memory: &[u8], registers: &[u64], rec: Record) -> Instruction
    requires { length registers.now ≡ 256 }
    ensures { result ≡ fetched_at (lent_at memory.now registers.now rec) }
{
    let p = BitAddress(rec.p);
    let word = fetch(memory, p);
    Instruction {
        p,
        word,
        operands: gather(word, registers),
    }
}

#[inline(always)]
pub fn held(registers: &[u64], rec: Record) -> Instruction
    requires { length registers.now ≡ 256 }
    ensures { result ≡ held_in registers.now rec }
{
    Instruction {
        p: BitAddress(rec.p),
        word: rec.word,
        operands: gather(rec.word, registers),
    }
}
