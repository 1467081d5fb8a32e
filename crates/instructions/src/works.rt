// The work of a plan that the checks let pass, by plain numbers: a stretch of its items.
ghost use Rattle.std.specs.Prelude.{◌+◌, ◌≤◌, ◌<◌};
ghost use Rattle.instructions.specs.Plan.{vectors, bit_runs, byte_move, shape_of, items_of};
ghost use Rattle.instructions.specs.Private.Accepted.{Ready};
ghost use Rattle.instructions.specs.Private.Loops.{makes_at, width_at, Turned};

use crate::items::{BitPlan, MovePlan, Stretch, VectorPlan};
use crate::{bitruns, forms, moves};

// A stretch of the vector of a code.
pub fn vector(m: &mut [u8], code: u64, plan: VectorPlan, part: Stretch) -> u64
    requires { Ready m.old (vectors plan (width_at code) (makes_at code)) × (part.from + part.count ≤ plan.items) × (0 < width_at code) }
    ensures { Turned (shape_of (vectors plan (width_at code) (makes_at code))) part.from part.count m.old part.flags m.new result }
{
    forms::vector(m, code, plan, part)
}

// A stretch of a bit instruction, which sets no flags. It and a move have a plan and a loop of their own, and are alike only in how these are called.
pub fn bits(m: &mut [u8], plan: BitPlan, part: Stretch) -> u64
    requires { Ready m.old (bit_runs plan) × (part.from + part.count ≤ items_of (bit_runs plan)) }
    ensures { Turned (shape_of (bit_runs plan)) part.from part.count m.old part.flags m.new result }
{
    bitruns::gather(m, plan, part.from, part.count);
    part.flags
}

// A stretch of a move, which sets no flags either.
pub fn moved(m: &mut [u8], plan: MovePlan, part: Stretch) -> u64
    requires { Ready m.old (byte_move plan) × (part.from + part.count ≤ items_of (byte_move plan)) }
    ensures { Turned (shape_of (byte_move plan)) part.from part.count m.old part.flags m.new result }
{
    moves::move_bytes(m, plan, part.from, part.count);
    part.flags
}
