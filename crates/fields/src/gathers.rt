// How far the source fields of compress, merge and mask run: to the last bit read if every item were stored.
ghost use Rattle.std.specs.Prelude.{◌≡◌};
ghost use Rattle.fields.specs.Gathers.{furthest, bit_items, bits_of_r, bits_of_s};
ghost use Rattle.fields.specs.Private.Cycles.{past_of, Allowed};

use crate::units::BitCount;

// Which bits of R and S become those of T.
#[derive(Clone, Copy)]
pub enum Rule {
    Compress,
    Merge,
    Mask,
}

// The lengths in R, S and T.
#[derive(Clone, Copy)]
pub struct Runs {
    pub r: u16,
    pub s: u16,
    pub n: u16,
}

// Items that read a source in cycles: `long` items of each period, from place `from` on. The first of a cycle reads the bit `at` past the
// cycle's start, and a cycle starts `stride` bits after the one before.
#[derive(Clone, Copy)]
struct Cycles {
    period: u64,
    from: u64,
    long: u64,
    stride: u64,
    at: u64,
}

impl Cycles {
    // One past the last bit that the first n items read. The 0 of two of its exits is a count of bits.
    fn reach(self, n: u64) -> u64
        requires { Allowed self n }
        ensures { result ≡ furthest (past_of self) n }
    {
        if n == 0 {
            return 0;
        }
        let from = self.from;
        let long = self.long;
        let stride = self.stride;
        let at = self.at;
        let cycles = n / self.period;
        let place = n % self.period;
        if from < place {
            return cycles * stride + at + long.min(place - from);
        }
        if cycles == 0 {
            return 0;
        }
        (cycles - 1) * stride + at + long
    }
}

impl Runs {
    // The items of T.
    pub fn items(self, rule: Rule) -> BitCount
        ensures { result.0 ≡ bit_items rule self }
    {
        let none = match rule {
            Rule::Compress => self.r == 0,
            Rule::Merge | Rule::Mask => self.r == 0 || self.s == 0,
        };
        BitCount(if none { 0 } else { self.n as u64 })
    }

    // The bits of R that are read.
    pub fn of_r(self, rule: Rule) -> BitCount
        ensures { result.0 ≡ bits_of_r rule self }
    {
        let n = self.items(rule).0;
        let r = self.r as u64;
        let s = self.s as u64;
        let (period, stride) = match rule {
            Rule::Compress => (r, r + s),
            Rule::Merge => (r + s, r),
            Rule::Mask => (r + s, r + s),
        };
        let cycles = Cycles {
            period,
            from: 0,
            long: r,
            stride,
            at: 0,
        };
        BitCount(cycles.reach(n))
    }

    // The bits of S that are read.
    pub fn of_s(self, rule: Rule) -> BitCount
        ensures { result.0 ≡ bits_of_s rule self }
    {
        let n = self.items(rule).0;
        let r = self.r as u64;
        let s = self.s as u64;
        let (stride, at) = match rule {
            Rule::Compress => return BitCount(0),
            Rule::Merge => (s, 0),
            Rule::Mask => (r + s, r),
        };
        let cycles = Cycles {
            period: r + s,
            from: r,
            long: s,
            stride,
            at,
        };
        BitCount(cycles.reach(n))
    }
}
