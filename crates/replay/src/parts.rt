// The calls of a case: one, or calls of `part` steps one after another. They come to what one call comes to.
ghost use Rattle.std.specs.Prelude.{◌≡◌, ◌+◌, ◌<◌, ◌^◌};
ghost use Rattle.runs.specs.Steps.{lent_at};
ghost use Rattle.runs.specs.Calls.{leaves, run};
ghost use Rattle.replay.specs.Parts.{calls_on, together};

use runs::answers::is_paused;
use runs::calls;
use runs::calls::Outcome;
use runs::records::Record;

// Is there another call to make?
fn goes_on(sum: Outcome, left: u32) -> bool
    ensures { result ≡ calls_on sum left }
{
    is_paused(sum.answer) && 0 < left
}

// A call after others.
fn together(sum: Outcome, last: Outcome) -> Outcome
    requires { sum.steps + last.steps < 2 ^ 32 }
    ensures { result ≡ together sum last }
{
    Outcome {
        answer: last.answer,
        steps: sum.steps + last.steps,
        rec: last.rec,
    }
}

// Calls of `part` steps, the last one smaller, up to the first answer that is not 0. No `for` has its range: what is left of
// the budget is part of what the contract speaks of, and the answer of the last call says whether there is another.
fn in_parts(
    memory: &mut [u8],
    registers: &mut [u64],
    rec: Record,
    budget: u32,
    part: u32,
) -> Outcome
    requires { 0 < part }
    ensures { leaves (lent_at memory.new registers.new) result ≡ run budget (lent_at memory.old registers.old rec) }
{
    let first = part.min(budget);
    let mut left = budget - first;
    let mut sum = calls::run(memory, registers, rec, first);
    while goes_on(sum, left) {
        let k = part.min(left);
        let last = calls::run(memory, registers, sum.rec, k);
        sum = together(sum, last);
        left -= k;
    }
    sum
}

// One call where `part` is 0.
pub fn work(
    memory: &mut [u8],
    registers: &mut [u64],
    rec: Record,
    budget: u32,
    part: u32,
) -> Outcome
    ensures { leaves (lent_at memory.new registers.new) result ≡ run budget (lent_at memory.old registers.old rec) }
{
    if part == 0 {
        return calls::run(memory, registers, rec, budget);
    }
    in_parts(memory, registers, rec, budget, part)
}
