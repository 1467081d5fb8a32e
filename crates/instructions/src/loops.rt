// The loop of vectors. It decodes nothing: what is made of an item, where its sources are, whether it is stored and how wide it is are parameters
// that the compiler knows, so that each choice of them (forms.rt) has a loop of its own, which asks nothing an item.
ghost use Rattle.std.specs.Prelude.{◌≡◌, cond, ◌+◌, ◌*◌, ◌%◌, ◌^◌, ◌<◌, ◌≤◌, eqb, length};
ghost use Rattle.fields.specs.Bytes.{num, size};
ghost use Rattle.fields.specs.Memory.{Kept};
ghost use Rattle.instructions.specs.Private.Loops.{Wide, InReach, Settled, TurnedBy};

use crate::items::Stretch;
use crate::lanes::{Gating, Lane, Lanes};
use fields::bytes::{self, HALF_WORD, WORD};
use numbers::flags::Made;

// All the bits of a word.
const ONES: u64 = 0xFFFF_FFFF_FFFF_FFFF;

// The new number where go is 1, the old one where it is 0, without a branch.
fn choose(go: u64, new: u64, old: u64) -> u64
    requires { go < 2 }
    ensures { result ≡ cond (eqb go 1) new old }
{
    let k = go * ONES;
    old ^ ((old ^ new) & k)
}

// The rightmost bits of v to the item of WIDTH bytes from byte k on.
fn put<const WIDTH: usize>(m: &mut [u8], k: usize, v: u64)
    requires { Wide WIDTH × (k + WIDTH ≤ length m.old) }
    ensures { Kept m.old (8 * k) (8 * WIDTH) (v % 2 ^ (8 * WIDTH)) m.new }
{
    if WIDTH == WORD {
        bytes::put::<WORD>(m, k, v)
    } else {
        bytes::put::<HALF_WORD>(m, k, v % 0x1_0000_0000)
    }
}

// The new item to item i of those at byte k, unless the old one is to stay.
fn settle<const WIDTH: usize>(
    m: &mut [u8],
    go: u64,
    k: usize,
    i: usize,
    new: Made<u64>,
    f: u64,
) -> u64
    requires { Wide WIDTH × (go < 2) × (length m.old ≤ 65536) × (k + i * WIDTH + WIDTH ≤ length m.old) }
    ensures { Settled m.old (8 * k + i * (8 * WIDTH)) (8 * WIDTH) (eqb go 1) new f m.new result }
{
    let at = k + i * WIDTH;
    let old = bytes::read::<WIDTH>(m, at);
    let item = choose(go, new.item, old);
    let raised = choose(go, new.flags, 0);
    put::<WIDTH>(m, at, item);
    f | raised
}

// A stretch of a vector's items, of WIDTH bytes each. Gives the flags. Not copied into its callers: there the loops under control have fewer
// registers to themselves and are up to a sixth longer. What is asked of WIDTH and `made` no value can carry: the compiler knows them.
#[inline(never)]
pub fn items<F: Fn(u64, u64) -> Made<u64>, A: Lane, B: Lane, Z: Gating, const WIDTH: usize>(
    m: &mut [u8],
    made: F,
    at: Lanes<A, B, Z>,
    part: Stretch,
) -> u64
    requires callable { F.IsAlwaysCallable made }
    requires reach { Wide WIDTH × InReach m.old (A.source at.a) (B.source at.b) (Z.control at.z) (8 * at.c) (8 * WIDTH) (part.from + part.count) }
    ensures { TurnedBy (F.post made) (A.source at.a) (B.source at.b) (Z.control at.z) (8 * at.c) (8 * WIDTH) part m.old m.new result }
{
    let mut f = part.flags;
    for i in part.from..part.from + part.count {
        let go = at.z.gate(m, i);
        let x = at.a.word(m, i);
        let y = at.b.word(m, i);
        f = settle::<WIDTH>(m, go, at.c, i, made(x, y), f);
    }
    f
}
