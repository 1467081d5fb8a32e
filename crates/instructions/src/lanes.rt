// Where a vector's items come from, and which are stored: a type for each way, and a trait for what the loop of vectors (loops.rt) asks of any.
ghost use Rattle.std.specs.Prelude.{◌≡◌, Option, Some, None, ◌+◌, ◌*◌, ◌≤◌, length};
ghost use Rattle.fields.specs.Bytes.{num, size};
ghost use Rattle.instructions.specs.declared.items.Source.{Source};
ghost use Rattle.instructions.specs.declared.items.Source.TheVariants.{Field, Value};
ghost use Rattle.instructions.specs.declared.items.Gated.{Gated};
ghost use Rattle.instructions.specs.Items.{value_at};
ghost use Rattle.instructions.specs.Plan.{source_item, control_bit, sense_of};
ghost use Rattle.instructions.specs.Private.Loops.{SourceReach, ControlReach, Gate};

use crate::items::Gated;
use fields::bytes::{self, WORD};

// A source of words. That memory is no larger than a call allows is asked here and below: a slice that is lent has no invariant to say it.
pub trait Lane: Copy {
    ghost source: { Self → Source };

    // Item i.
    fn word(self, m: &[u8], i: usize) -> u64
        requires { (length m.now ≤ 65536) × SourceReach m.now (i + 1) (source self) }
        ensures { result ≡ value_at (size m.now) 64 (source_item (source self) i) (num m.now) };
}

// Words of memory, by the byte that the first begins with.
#[derive(Clone, Copy)]
pub struct Words(pub usize);

impl Lane for Words {
    ghost source = { λ s. Field (8 * s.0) };

    fn word(self, m: &[u8], i: usize) -> u64 {
        bytes::read::<WORD>(m, self.0 + i * WORD)
    }
}

// One word for every item.
#[derive(Clone, Copy)]
pub struct Broadcast(pub u64);

impl Lane for Broadcast {
    ghost source = { λ s. Value s.0 };

    fn word(self, _m: &[u8], _i: usize) -> u64 {
        self.0
    }
}

// Which items are stored.
pub trait Gating: Copy {
    ghost control: { Self → Option Gated };

    // Whether item i is: 1 or 0, a number, so that the loop has no branch on it.
    fn gate(self, m: &[u8], i: usize) -> u64
        requires { (length m.now ≤ 65536) × ControlReach m.now (i + 1) (control self) }
        ensures { Gate result (value_at (size m.now) 1 (control_bit (control self) i) (num m.now)) (sense_of (control self)) };
}

// All of them.
#[derive(Clone, Copy)]
pub struct Ungated;

impl Gating for Ungated {
    ghost control = { λ s. None };

    fn gate(self, _m: &[u8], _i: usize) -> u64 {
        1
    }
}

// Those whose control bit says so.
impl Gating for Gated {
    ghost control = { λ s. Some s };

    fn gate(self, m: &[u8], i: usize) -> u64 {
        let bit = bytes::bit(m, self.base + i);
        if self.ones { bit } else { 1 - bit }
    }
}

// A vector's lanes: A, B, Z, and C by its first byte.
#[derive(Clone, Copy)]
pub struct Lanes<A, B, Z> {
    pub a: A,
    pub b: B,
    pub z: Z,
    pub c: usize,
}
