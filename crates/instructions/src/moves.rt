// Move: bytes from the source, then the fill byte.
ghost use Rattle.std.specs.Prelude.{◌≡◌, ◌+◌, ◌-◌, ◌*◌, ◌<◌, ◌≤◌, min, length};
ghost use Rattle.instructions.specs.Items.{bits, fixed};
ghost use Rattle.instructions.specs.Plan.{taken_shape};
ghost use Rattle.instructions.specs.Private.Loops.{TurnedQuietly, ReadyBytes, move_shape};

use crate::items::MovePlan;

// Bytes from..from + count of the bytes at k to those at kc. Not `copy_within`: the contract says one byte after another from the first on, also where that
// reads a byte that it has written, which `move_bytes` asks nobody to rule out.
fn copy(m: &mut [u8], k: usize, kc: usize, from: usize, count: usize)
    requires { (0 < count → k + (from + count) ≤ length m.old) × (kc + (from + count) ≤ length m.old) }
    ensures { TurnedQuietly (taken_shape (8 * kc) 8 (λ i. bits (8 * k + i * 8))) from count m.old m.new }
{
    for i in from..from + count {
        m[kc + i] = m[k + i];
    }
}

// Bytes from..from + count of those at kc, all v.
fn fill(m: &mut [u8], v: u8, kc: usize, from: usize, count: usize)
    requires { kc + (from + count) ≤ length m.old }
    ensures { TurnedQuietly (taken_shape (8 * kc) 8 (λ i. fixed v)) from count m.old m.new }
{
    let at = kc + from;
    m[at..at + count].fill(v);
}

// How many of count bytes from byte `from` on a source of `length` bytes has.
fn copied(length: usize, from: usize, count: usize) -> usize
    ensures { result ≡ min (length - from) count }
{
    length.saturating_sub(from).min(count)
}

// Items from..from + count of a move, which sets no flags and so takes no Stretch.
pub fn move_bytes(m: &mut [u8], plan: MovePlan, from: usize, count: usize)
    requires { ReadyBytes m.old plan.source plan.length plan.result (from + count) }
    ensures { TurnedQuietly (move_shape plan) from count m.old m.new }
{
    let k = plan.source / 8;
    let kc = plan.result / 8;
    let v = plan.fill;
    let first = copied(plan.length as usize, from, count);
    copy(m, k, kc, from, first);
    fill(m, v, kc, from + first, count - first);
}
