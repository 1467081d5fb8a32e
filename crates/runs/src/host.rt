// The call for C hosts: the record is lent to the run and holds the new state afterwards. The crate runs_c exports it to C.
ghost use Rattle.std.specs.Prelude.{◌≡◌};
ghost use Rattle.runs.specs.Steps.{lent_at};
ghost use Rattle.runs.specs.Calls.{run};
ghost use Rattle.runs.specs.Hosts.{packed, lent, handed};

use crate::answers::number;
use crate::calls::{Outcome, run};
use crate::records::Record;

// The answer's number in the left 32 bits, the steps in the right 32.
#[tactic(auto, using(crate::proofs::Numbered::number_fits), unfolding(crate::specs::Hosts::packed))]
pub fn packed(out: Outcome) -> u64
    ensures { result ≡ packed out.answer out.steps }
{
    number(out.answer) * 0x1_0000_0000 + out.steps as u64
}

// A run of at most `budget` steps over a record that is lent.
pub fn rawgunshet_run(
    memory: &mut [u8],
    registers: &mut [u64],
    rec: &mut Record,
    budget: u32,
) -> u64
    ensures { lent (lent_at memory.new registers.new rec.new) result
        ≡ handed (run budget (lent_at memory.old registers.old rec.old)) }
{
    let out = run(memory, registers, *rec, budget);
    *rec = out.rec;
    packed(out)
}
