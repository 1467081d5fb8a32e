// The forms of each vector: what its code makes of an item, and its loop, chosen once by where the plan has A and B and by which items are stored.
ghost use Rattle.std.specs.Prelude.{◌≡◌, ℕ, ◌+◌, ◌*◌, ◌<◌};
ghost use Rattle.instructions.specs.Meanings.{plain};
ghost use Rattle.instructions.specs.Private.Loops.{makes_at, width_at, Wide, InReach, PlanReach, vector_shape_of, Turned, TurnedBy, AloneTurnedBy};

use crate::items::{Gated, Source, Stretch, VectorPlan};
use crate::lanes::{Broadcast, Lane, Lanes, Ungated, Words};
use crate::loops::items;
use fields::bytes::{HALF_WORD, WORD};
use numbers::contracts::contract;
use numbers::flags::Made;
use numbers::whole::whole;
use numbers::{Rounding, shifts, words};

// A word that sets no flags.
fn plain(word: u64) -> Made<u64>
    ensures { result ≡ plain word }
{
    Made {
        item: word,
        flags: 0,
    }
}

// A half word, as the word of its bits. No From: it would stand in numbers, which has no use of it.
fn of_half(res: Made<u32>) -> Made<u64>
    ensures { result ≡ res }
{
    Made {
        item: res.item as u64,
        flags: res.flags,
    }
}

// The loop of an operation whose sources are known, by the plan's control.
fn by_control<F: Fn(u64, u64) -> Made<u64>, A: Lane, B: Lane, const WIDTH: usize>(
    m: &mut [u8],
    made: F,
    a: A,
    b: B,
    plan: VectorPlan,
    part: Stretch,
) -> u64
    requires callable { F.IsAlwaysCallable made }
    requires reach { Wide WIDTH × InReach m.old (A.source a) (B.source b) plan.control plan.result (8 * WIDTH) (part.from + part.count) }
    ensures { TurnedBy (F.post made) (A.source a) (B.source b) plan.control plan.result (8 * WIDTH) part m.old m.new result }
{
    let c = plan.result / 8;
    match plan.control {
        None => items::<F, A, B, Ungated, WIDTH>(
            m,
            made,
            Lanes {
                a,
                b,
                z: Ungated,
                c,
            },
            part,
        ),
        Some(z) => items::<F, A, B, Gated, WIDTH>(m, made, Lanes { a, b, z, c }, part),
    }
}

// The loop of an operation on A, which is known, and B.
fn by_second<F: Fn(u64, u64) -> Made<u64>, A: Lane, const WIDTH: usize>(
    m: &mut [u8],
    made: F,
    a: A,
    plan: VectorPlan,
    part: Stretch,
) -> u64
    requires callable { F.IsAlwaysCallable made }
    requires reach { Wide WIDTH × InReach m.old (A.source a) plan.second plan.control plan.result (8 * WIDTH) (part.from + part.count) }
    ensures { TurnedBy (F.post made) (A.source a) plan.second plan.control plan.result (8 * WIDTH) part m.old m.new result }
{
    match plan.second {
        Source::Field(base) => by_control::<_, _, _, WIDTH>(
            m,
            made,
            a,
            Words(base / 8),
            plan,
            part,
        ),
        Source::Value(value) => by_control::<_, _, _, WIDTH>(
            m,
            made,
            a,
            Broadcast(value),
            plan,
            part,
        ),
    }
}

// An operation on A and B.
fn of_two<F: Fn(u64, u64) -> Made<u64>, const WIDTH: usize>(
    m: &mut [u8],
    made: F,
    plan: VectorPlan,
    part: Stretch,
) -> u64
    requires callable { F.IsAlwaysCallable made }
    requires reach { Wide WIDTH × PlanReach m.old plan (8 * WIDTH) (part.from + part.count) }
    ensures { TurnedBy (F.post made) plan.first plan.second plan.control plan.result (8 * WIDTH) part m.old m.new result }
{
    match plan.first {
        Source::Field(base) => by_second::<_, _, WIDTH>(m, made, Words(base / 8), plan, part),
        Source::Value(value) => by_second::<_, _, WIDTH>(m, made, Broadcast(value), plan, part),
    }
}

// An operation on A alone.
fn of_one<F: Fn(u64) -> Made<u64>, const WIDTH: usize>(
    m: &mut [u8],
    made: F,
    plan: VectorPlan,
    part: Stretch,
) -> u64
    requires callable { F.IsAlwaysCallable made }
    requires reach { Wide WIDTH × PlanReach m.old plan (8 * WIDTH) (part.from + part.count) }
    ensures { AloneTurnedBy (F.post made) plan (8 * WIDTH) part m.old m.new result }
{
    let b = Broadcast(0);
    let of_a = move |x: u64, _y: u64| made(x);
    match plan.first {
        Source::Field(base) => by_control::<_, _, _, WIDTH>(
            m,
            of_a,
            Words(base / 8),
            b,
            plan,
            part,
        ),
        Source::Value(value) => by_control::<_, _, _, WIDTH>(
            m,
            of_a,
            Broadcast(value),
            b,
            plan,
            part,
        ),
    }
}

// A stretch of the vector of a code, which is a number of the word: one match on it is one jump. No other code has items of any width.
#[tactic(auto, unfolding(crate::specs::Private::Loops::width_at, crate::specs::Private::Loops::makes_at, crate::specs::Table::meaning_of))]
pub fn vector(m: &mut [u8], code: u64, plan: VectorPlan, part: Stretch) -> u64
    requires { PlanReach m.old plan (width_at code) (part.from + part.count) × (0 < width_at code) }
    ensures { Turned (vector_shape_of plan (width_at code) (makes_at code)) part.from part.count m.old part.flags m.new result }
{
    match code {
        0x83 => of_two::<_, WORD>(m, |x, y| plain(words::add(x, y)), plan, part),
        0x87 => of_two::<_, WORD>(m, |x, y| plain(words::subtract(x, y)), plan, part),
        0x8A => of_two::<_, WORD>(m, |x, y| plain(shifts::shift(x, y)), plan, part),
        0x90 => of_one::<_, WORD>(m, |x| whole(Rounding::Zero, x), plan, part),
        0x91 => of_one::<_, WORD>(m, |x| whole(Rounding::Down, x), plan, part),
        0x92 => of_one::<_, WORD>(m, |x| whole(Rounding::Up, x), plan, part),
        0x96 => of_one::<_, HALF_WORD>(m, |x| of_half(contract(x, false)), plan, part),
        0x97 => of_one::<_, HALF_WORD>(m, |x| of_half(contract(x, true)), plan, part),
        0x98 => of_one::<_, WORD>(m, plain, plan, part),
        // No vector's code, which is never asked: a code is a number, so that no list of arms is whole.
        _ => part.flags,
    }
}
