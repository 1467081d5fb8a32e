// The items of a vector, bit or move instruction: where they are. Places are bits of the lent memory, from 0.
ghost use Rattle.std.specs.Prelude.{◌<◌};

use fields::gathers::{Rule, Runs};

// Where a vector's source items are: from a bit of the lent memory on, or one value for all. Both are there, so it is no Option, which has one or nothing.
#[derive(Clone, Copy)]
pub enum Source {
    Field(usize),
    Value(u64),
}

// Items under control: those are stored whose control bit, from the bit `base` of the lent memory on, is one, or zero.
#[derive(Clone, Copy)]
pub struct Gated {
    pub base: usize,
    pub ones: bool, // which bit stores, in every case
}

// Where the items of a vector are. One with a single source has a value for `second`, and makes nothing of it. Without control every item is stored.
#[derive(Clone, Copy)]
pub struct VectorPlan {
    pub first: Source,
    pub second: Source,
    pub control: Option<Gated>,
    pub result: usize,
    pub items: u16,
}

// A compress, merge or mask, with the lengths in R, S and T. Its second source begins with a bit of the lent memory, or is none, and then zeros are taken.
#[derive(Clone, Copy)]
pub struct BitPlan {
    pub rule: Rule,
    pub first: usize,
    pub second: Option<usize>,
    pub result: usize,
    pub runs: Runs,
}

// A move of `length` bytes, filled after them.
#[derive(Clone, Copy)]
pub struct MovePlan {
    pub source: usize,
    pub length: u16,
    pub fill: u8,
    pub result: usize,
    pub items: u16,
}

// Which items of an instruction are worked, from..from + count, one at least, and the flags before them.
#[derive(Clone, Copy)]
pub struct Stretch {
    pub from: usize,
    pub count: usize,
    pub flags: u64,
    ghost some: { 0 < count },
}
