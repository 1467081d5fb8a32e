// Instructions of one step each, as many as follow one another: the registers, loads and stores, and branches.
#![tactic(auto, unfolding(crate::specs::Calls::lengths_right))]

ghost use Rattle.std.specs.Prelude.{◌≡◌, true, length};
ghost use Rattle.runs.specs.Records.{between};
ghost use Rattle.runs.specs.Steps.{lent_at};
ghost use Rattle.runs.specs.Calls.{lengths_right};
ghost use Rattle.runs.specs.Private.Inner.{Strode};

use crate::fetches::fetched;
use crate::records::Record;

// Steps that were taken, and the record after them.
#[derive(Clone, Copy)]
pub struct Did {
    pub rec: Record,
    pub steps: u32,
}

// From between two instructions: steps until as many are taken, or the instruction at P is refused or goes by items.
pub fn stride(memory: &mut [u8], registers: &mut [u64], p: u64, flags: u64, most: u32) -> Did
    requires { lengths_right (length memory.old) (length registers.old) ≡ true }
    ensures { Strode (lent_at memory.old registers.old (between p flags)) most (lent_at memory.new registers.new) result }
{
    let mut rec = Record::between(p, flags);
    for steps in 0..most {
        let it = fetched(memory, registers, rec);
        if !it.one_step(memory) {
            return Did { rec, steps };
        }
        let acted = it.act(memory, registers, rec.flags);
        rec = Record::between(acted.p.0, acted.flags);
    }
    Did { rec, steps: most }
}
