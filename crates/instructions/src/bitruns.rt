// Compress, merge and mask, by runs of up to 64 bits; where the runs are short, by several periods at once.
ghost use Rattle.std.specs.Prelude.{◌≡◌, ◌+◌, ◌-◌, ◌*◌, ◌%◌, ◌^◌, ◌<◌, ◌≤◌, max};
ghost use Rattle.fields.specs.Slot.{get};
ghost use Rattle.fields.specs.Field.{field, store};
ghost use Rattle.fields.specs.Bytes.{num, size};
ghost use Rattle.fields.specs.Memory.{Kept};
ghost use Rattle.instructions.specs.Items.{value_at};
ghost use Rattle.instructions.specs.Plan.{second_bit};
ghost use Rattle.instructions.specs.Private.Loops.{TurnedQuietly, Room, RoomFor, period_bits, period_of, cursor_at, cursor_on, left_at, weave_of, stands_at, woven_shape, ReadyBits, Chunk, spread_of, front_of, back_of, gather_shape, span_r, span_s, periods_of};

use crate::items::BitPlan;
use fields::bytes::{self, WORD};
use fields::gathers::{Rule, Runs};

// The n bits from bit j of a word on.
fn part(w: u64, j: u64, n: u64) -> u64
    requires { (0 < n) × (j + n ≤ 64) }
    ensures { result ≡ field 64 j n w }
{
    (w << j) >> (64 - n)
}

// The word with v in those bits.
fn placed(w: u64, j: u64, n: u64, v: u64) -> u64
    requires { (0 < n) × (j + n ≤ 64) × (v < 2 ^ n) }
    ensures { result ≡ store 64 j n v w }
{
    let s = 64 - (j + n);
    let held = part(w, j, n) << s;
    w - held + (v << s)
}

// The n bits at bit `at`, which lie in one aligned word. `Room` is of the memory that is lent and of a place in it, so that no value holds it, here and below.
fn in_word(m: &[u8], at: usize, n: u64) -> u64
    requires { Room m.now at n × (at % 64 + n ≤ 64) }
    ensures { result ≡ field (size m.now) at n (num m.now) }
{
    let w = bytes::read::<WORD>(m, at / 64 * 8);
    part(w, (at % 64) as u64, n)
}

// v to the n bits at bit `at`, which lie in one aligned word.
fn to_word(m: &mut [u8], at: usize, n: u64, v: u64)
    requires { Room m.old at n × (at % 64 + n ≤ 64) × (v < 2 ^ n) }
    ensures { Kept m.old at n v m.new }
{
    let k = at / 64 * 8;
    let w = bytes::read::<WORD>(m, k);
    let x = placed(w, (at % 64) as u64, n, v);
    bytes::put::<WORD>(m, k, x);
}

// The n bits at any bit `at`.
fn run(m: &[u8], at: usize, n: u64) -> u64
    requires { Room m.now at n }
    ensures { result ≡ field (size m.now) at n (num m.now) }
{
    let h = 64 - (at % 64) as u64;
    if n <= h {
        in_word(m, at, n)
    } else {
        let l = n - h;
        let x = in_word(m, at, h);
        let y = in_word(m, at + h as usize, l);
        (x << l) | y
    }
}

// v to the n bits at any bit `at`.
fn put_run(m: &mut [u8], at: usize, n: u64, v: u64)
    requires { Room m.old at n × (v < 2 ^ n) }
    ensures { Kept m.old at n v m.new }
{
    let h = 64 - (at % 64) as u64;
    if n <= h {
        to_word(m, at, n, v);
    } else {
        let l = n - h;
        to_word(m, at, h, v >> l);
        to_word(m, at + h as usize, l, part(v, 64 - l, l));
    }
}

// A period of the result: its head is taken from R and its tail from S. R goes on by `first` in a period and S by `second`; the first tail lies `over` bits
// past where S begins.
#[derive(Clone, Copy)]
pub struct Period {
    pub head: u32,
    pub tail: u32,
    pub first: u32,
    pub second: u32,
    pub over: u32,
}

impl Period {
    // The period of a rule.
    fn of(rule: Rule, runs: Runs) -> Period
        ensures { result ≡ period_of rule runs }
    {
        let r = runs.r as u32;
        let s = runs.s as u32;
        match rule {
            Rule::Compress => Period {
                head: r,
                tail: 0,
                first: r + s,
                second: 0,
                over: 0,
            },
            Rule::Merge => Period {
                head: r,
                tail: s,
                first: r,
                second: s,
                over: 0,
            },
            Rule::Mask => Period {
                head: r,
                tail: s,
                first: r + s,
                second: r + s,
                over: r,
            },
        }
    }

    // The bits of the result that it has.
    fn bits(self) -> usize
        ensures { result ≡ period_bits self }
    {
        self.head as usize + self.tail as usize
    }

    // The most that it goes on by: in the result, in R or in S.
    fn widest(self) -> usize
        ensures { result ≡ max (max (period_bits self) self.first) self.second }
    {
        self.bits()
            .max(self.first as usize)
            .max(self.second as usize)
    }
}

// Where the work stands: the place in the period, the bit of R that its head begins with, and how far past the beginning of S its tail is.
#[derive(Clone, Copy)]
pub struct Cursor {
    pub place: usize,
    pub r: usize,
    pub s: usize,
}

impl Cursor {
    // n bits on, and no further than the period.
    fn on(self, p: Period, n: usize) -> Cursor
        requires { (self.place < 2 ^ 33) × (n ≤ 64) × (self.r < 2 ^ 53) × (self.s < 2 ^ 53) }
        ensures { result ≡ cursor_on self p n }
    {
        let place = self.place + n;
        if place == p.bits() {
            Cursor {
                place: 0,
                r: self.r + p.first as usize,
                s: self.s + p.second as usize,
            }
        } else {
            Cursor {
                place,
                r: self.r,
                s: self.s,
            }
        }
    }

    // The bits left of the head or the tail that it stands in.
    fn left(self, p: Period) -> usize
        requires { self.place < period_bits p }
        ensures { result ≡ left_at self p }
    {
        let head = p.head as usize;
        if self.place < head {
            head - self.place
        } else {
            p.bits() - self.place
        }
    }
}

// The n bits of x that have `right` bits to their right.
fn piece(x: u64, right: usize, n: usize) -> u64
    requires { (right < 64) × (n ≤ 32) }
    ensures { result ≡ get right n x }
{
    let end: u64 = 1 << n;
    (x >> right) % end
}

// Of plain numbers and not of `Periods`, which are made with two of these.
//
// t pieces of x, each of n bits and `step` bits after the one before it, the last at the right end: each at the right end of `gap` bits.
fn spread(x: u64, step: usize, n: usize, gap: usize, t: usize) -> u64
    requires { (n ≤ gap) × (gap ≤ 32) × (t * gap ≤ 64) × (t * step ≤ 64) }
    ensures { result ≡ spread_of x step n gap t t }
{
    let mut v: u64 = 0;
    for k in 0..t {
        v = (v << gap) + piece(x, (t - (k + 1)) * step, n);
    }
    v
}

// t pieces of n ones each.
fn all_ones(n: usize, gap: usize, t: usize) -> u64
    requires { (n ≤ gap) × (gap ≤ 32) × (t * gap ≤ 64) }
    ensures { result ≡ spread_of (2 ^ n - 1) 0 n gap t t }
{
    let end: u64 = 1 << n;
    spread(end - 1, 0, n, gap, t)
}

// As `spread`; pieces that are as far apart as they are to be stay where they are.
fn pieces(x: u64, ones: u64, step: usize, n: usize, gap: usize, t: usize) -> u64
    requires { (n ≤ gap) × (gap ≤ 32) × (t * gap ≤ 64) × (t * step ≤ 64) × (ones ≡ spread_of (2 ^ n - 1) 0 n gap t t) }
    ensures { result ≡ spread_of x step n gap t t }
{
    if step == gap {
        x & ones
    } else {
        spread(x, step, n, gap, t)
    }
}

// What is woven: R from bit r on and S from bit s on, or zeros for S, by a period, to bit `to` and those after it.
#[derive(Clone, Copy)]
pub struct Weave {
    pub r: usize,
    pub s: Option<usize>,
    pub period: Period,
    pub to: usize,
}

impl Weave {
    // Of a plan. What has no tail takes nothing of S.
    fn of(plan: BitPlan) -> Weave
        ensures { result ≡ weave_of plan }
    {
        let period = Period::of(plan.rule, plan.runs);
        Weave {
            r: plan.first,
            s: if period.tail == 0 { None } else { plan.second },
            period,
            to: plan.result,
        }
    }

    // The cursor at item i, of at most as many as the largest memory has bits: 8 times 65,536.
    fn at(self, i: usize) -> Cursor
        requires { (0 < period_bits self.period) × (self.r < 2 ^ 48) × (i ≤ 524288) }
        ensures { result ≡ cursor_at self i }
    {
        let p = self.period;
        let turn = i / p.bits();
        Cursor {
            place: i % p.bits(),
            r: self.r + turn * p.first as usize,
            s: p.over as usize + turn * p.second as usize,
        }
    }

    // The next n bits of the head or the tail that the cursor stands in.
    fn next_bits(self, m: &[u8], u: Cursor, n: u64) -> u64
        requires { RoomFor m.now n (stands_at self u) }
        ensures { result ≡ value_at (size m.now) n (stands_at self u) (num m.now) }
    {
        let head = self.period.head as usize;
        if u.place < head {
            return run(m, u.r + u.place, n);
        }
        match self.s {
            Some(s) => run(m, s + (u.s + (u.place - head)), n),
            None => 0,
        }
    }

    // Items from..from + count, by runs. A run ends with the head or the tail, with the items asked for, or with an aligned word of the result.
    fn by_runs(self, m: &mut [u8], from: usize, count: usize)
        requires { ReadyBits m.old self (from + count) }
        ensures { TurnedQuietly (woven_shape self) from count m.old m.new }
    {
        let p = self.period;
        let mut u = self.at(from);
        let mut done: usize = 0;
        // No `for`, which would have no range to go over: how long a run is, 1 to 64 bits, is known when it is reached.
        while done < count {
            let to = self.to + (from + done);
            let n = u.left(p).min(count - done).min(64 - to % 64);
            let v = self.next_bits(m, u, n as u64);
            to_word(m, to, n as u64, v);
            u = u.on(p, n);
            done += n;
        }
    }

    // Items from..from + count, the shorter way.
    fn work(self, m: &mut [u8], from: usize, count: usize)
        requires { ReadyBits m.old self (from + count) }
        ensures { TurnedQuietly (woven_shape self) from count m.old m.new }
    {
        let p = self.period;
        if 64 <= count && 0 < p.head && p.widest() <= 32 {
            Periods::of(self).in_periods(m, from, count);
        } else {
            self.by_runs(m, from, count);
        }
    }
}

// t periods of what is woven, which are worked at once; front and back have ones where the pieces of R and of S go.
#[derive(Clone, Copy)]
struct Periods {
    weave: Weave,
    t: usize,
    front: u64,
    back: u64,
    ghost fits: { Chunk weave.period t },
    ghost pieces: { (front ≡ front_of weave.period t) × (back ≡ back_of weave.period t) },
}

impl Periods {
    // As many as fit a word, in the result, in R and in S.
    fn of(weave: Weave) -> Periods
        requires { (0 < weave.period.head) × (max (max (period_bits weave.period) weave.period.first) weave.period.second ≤ 32) }
        ensures { result.weave ≡ weave }
    {
        let p = weave.period;
        let t = 64 / p.widest();
        Periods {
            weave,
            t,
            front: all_ones(p.head as usize, p.bits(), t),
            back: all_ones(p.tail as usize, p.bits(), t),
        }
    }

    // Their bits, where the first head begins with bit r of the memory and the first tail is s bits past where S begins.
    fn bits(self, m: &[u8], r: usize, s: usize) -> u64
        requires { Room m.now r (span_r self.weave.period self.t) × RoomFor m.now (span_s self.weave.period self.t) (second_bit self.weave.s s) }
        ensures { result ≡ periods_of (size m.now) self.weave self.t r s (num m.now) }
    {
        let t = self.t;
        let p = self.weave.period;
        let gap = p.bits();
        let head = p.head as usize;
        let tail = p.tail as usize;
        let first = p.first as usize;
        let second = p.second as usize;
        let x = run(m, r, ((t - 1) * first + head) as u64);
        let heads = pieces(x, self.front, first, head, gap, t) << tail;
        match self.weave.s {
            Some(b) => {
                let y = run(m, b + s, ((t - 1) * second + tail) as u64);
                heads + pieces(y, self.back, second, tail, gap, t)
            }
            None => heads,
        }
    }

    // As many times t periods as count bits have, from the beginning of a period on; how many bits that is.
    fn by_periods(self, m: &mut [u8], from: usize, count: usize) -> usize
        requires { ReadyBits m.old self.weave (from + count) × (from % period_bits self.weave.period ≡ 0) }
        ensures { (result ≤ count) × TurnedQuietly (woven_shape self.weave) from result m.old m.new }
    {
        let p = self.weave.period;
        let n = self.t * p.bits();
        let u = self.weave.at(from);
        let times = count / n;
        for k in 0..times {
            let r = u.r + k * (self.t * p.first as usize);
            let s = u.s + k * (self.t * p.second as usize);
            let v = self.bits(m, r, s);
            put_run(m, self.weave.to + (from + k * n), n as u64, v);
        }
        times * n
    }

    // Bits to the end of a period, then several periods at once, then the rest.
    fn in_periods(self, m: &mut [u8], from: usize, count: usize)
        requires { ReadyBits m.old self.weave (from + count) × (64 ≤ count) }
        ensures { TurnedQuietly (woven_shape self.weave) from count m.old m.new }
    {
        let gap = self.weave.period.bits();
        let lead = gap - from % gap;
        self.weave.by_runs(m, from, lead);
        let done = lead + self.by_periods(m, from + lead, count - lead);
        self.weave.by_runs(m, from + done, count - done);
    }
}

// Items from..from + count of a compress, merge or mask. They set no flags, so that it takes no Stretch, which has the flags before them.
pub fn gather(m: &mut [u8], plan: BitPlan, from: usize, count: usize)
    requires { ReadyBits m.old (weave_of plan) (from + count) }
    ensures { TurnedQuietly (gather_shape plan) from count m.old m.new }
{
    Weave::of(plan).work(m, from, count);
}
