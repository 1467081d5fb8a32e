// Steps of one instruction: as many as it has left, or as many as are wanted.
// Memory and registers stay two slices, and their right lengths a fact of the contracts: the C interface lends them so, `begin` and `go_on` only read the
// registers, and `Control::begin` only reads both, which one struct of two `&mut` could not say.
#![tactic(auto, unfolding(crate::specs::Calls::lengths_right))]

ghost use Rattle.std.specs.Prelude.{◌≡◌, true, false, ◌+◌, ◌-◌, ◌<◌, ◌^◌, min, length};
ghost use Rattle.instructions.specs.Fetch.{length_of};
ghost use Rattle.instructions.specs.Instruction.{count_of};
ghost use Rattle.runs.specs.Records.{between};
ghost use Rattle.runs.specs.Steps.{lent_at, after};
ghost use Rattle.runs.specs.Calls.{lengths_right, Sound};
ghost use Rattle.runs.specs.Private.Inner.{Goes, Bursts, Starts, Resumes, Proceeds, Performs, one_step_at};

use crate::answers::Answer;
use crate::checks::half_done;
use crate::fetches::{fetched, held};
use crate::records::Record;
use crate::strides::{Did, stride};
use fields::units::ByteCount;
use instructions::fetch::length_of;
use instructions::instruction::Instruction;

// The record past an instruction.
fn past(it: Instruction, flags: u64) -> Record
    requires { it.p.0 + length_of it.word < 2 ^ 48 }
    ensures { result ≡ between (it.p.0 + length_of it.word) flags }
{
    Record::between(it.p.0 + length_of(it.word).0, flags)
}

// The record after k of its n items.
#[tactic(auto, unfolding(crate::specs::Steps::after))]
fn after(it: Instruction, n: u64, k: u64, flags: u64) -> Record
    requires { it.p.0 + length_of it.word < 2 ^ 48 }
    ensures { result ≡ after n it.word k it.p.0 flags }
{
    if k < n {
        Record::half(it.p.0, it.word, k, flags)
    } else {
        past(it, flags)
    }
}

// Items from `done` on: those that are left, or as many as `most`.
pub fn burst(memory: &mut [u8], it: Instruction, flags: u64, done: u64, most: u32) -> Did
    requires { Goes (length memory.old) it done }
    ensures { Bursts memory.old it flags done (min (count_of it.word it.operands - done) most) memory.new result }
{
    let n = it.count();
    let rest = n - done;
    let todo = rest.min(most as u64);
    let set = it.work(memory, done, todo, flags);
    Did {
        rec: after(it, n, done + todo, set),
        steps: todo as u32,
    }
}

// The instruction at P, from its start, which is refused or goes by items. Every check comes before its first step.
fn begin(memory: &mut [u8], registers: &[u64], rec: Record, most: u32) -> Result<Did, Answer>
    requires { Starts (lent_at memory.old registers.now rec) most × (one_step_at (lent_at memory.old registers.now rec) ≡ false) }
    ensures { Performs (lent_at memory.old registers.now rec) most (lent_at memory.new registers.now) result }
{
    let it = fetched(memory, registers, rec);
    it.verdict(ByteCount(memory.len() as u64))?;
    if it.count() == 0 {
        return Ok(Did {
            rec: past(it, rec.flags),
            steps: 1,
        });
    }
    Ok(burst(memory, it, rec.flags, 0, most))
}

// From P on: instructions of one step each, as many as follow one another, or the one that goes by items.
fn start(memory: &mut [u8], registers: &mut [u64], rec: Record, most: u32) -> Result<Did, Answer>
    requires { Starts (lent_at memory.old registers.old rec) most }
    ensures { Performs (lent_at memory.old registers.old rec) most (lent_at memory.new registers.new) result }
{
    let did = stride(memory, registers, rec.p, rec.flags, most);
    if 0 < did.steps {
        return Ok(did);
    }
    begin(memory, registers, rec, most)
}

// What is half done goes on with the word that it holds. Nothing is fetched, and nothing judged again.
fn go_on(memory: &mut [u8], registers: &[u64], rec: Record, most: u32) -> Did
    requires { Resumes (lent_at memory.old registers.now rec) most }
    ensures { Proceeds (lent_at memory.old registers.now rec) most (lent_at memory.new registers.now) result }
{
    burst(memory, held(registers, rec), rec.flags, rec.items, most)
}

// At most `most` steps of one instruction, of a possible record.
pub fn perform(
    memory: &mut [u8],
    registers: &mut [u64],
    rec: Record,
    most: u32,
) -> Result<Did, Answer>
    requires { (0 < most) × Sound (lent_at memory.old registers.old rec) }
    ensures { Performs (lent_at memory.old registers.old rec) most (lent_at memory.new registers.new) result }
{
    if rec.mark == 0 { // between two instructions: the word at P is fetched
        return start(memory, registers, rec, most);
    }
    Ok(go_on(memory, registers, rec, most))
}

// One step of any record; one that is marked and not half done ends the run with refusal 3.
pub fn perform_one(memory: &mut [u8], registers: &mut [u64], rec: Record) -> Result<Did, Answer>
    requires { lengths_right (length memory.old) (length registers.old) ≡ true }
    ensures { Performs (lent_at memory.old registers.old rec) 1 (lent_at memory.new registers.new) result }
{
    if rec.mark == 0 {
        return start(memory, registers, rec, 1);
    }
    if half_done(rec, ByteCount(memory.len() as u64), registers) {
        return Ok(go_on(memory, registers, rec, 1));
    }
    Err(Answer::Impossible)
}
