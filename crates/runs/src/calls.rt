// The call: memory, registers, record and budget to answer, steps and the next record.
ghost use Rattle.std.specs.Prelude.{◌≡◌};
ghost use Rattle.runs.specs.Steps.{lent_at};
ghost use Rattle.runs.specs.Calls.{leaves, run};

use crate::advances::{go, take_up};
use crate::answers::Answer;
use crate::records::Record;

#[derive(Clone, Copy)]
pub struct Outcome {
    pub answer: Answer,
    pub steps: u32,
    pub rec: Record,
}

// A run of at most `budget` steps.
pub fn run(memory: &mut [u8], registers: &mut [u64], rec: Record, budget: u32) -> Outcome
    ensures { leaves (lent_at memory.new registers.new) result ≡ run budget (lent_at memory.old registers.old rec) }
{
    let c = take_up(memory, registers, rec, budget);
    go(c, memory, registers).finish(budget)
}
