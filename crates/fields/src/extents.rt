// A field: so many bits from an address on. Whether it is empty, aligned, inside memory, or shares a bit with another.
ghost use Rattle.std.specs.Prelude.{◌≡◌, ◌<◌};
ghost use Rattle.fields.specs.declared.extents.Unit.TheVariants.{Bit, Byte, HalfWord, Word};
ghost use Rattle.fields.specs.Extents.{width_of, field_of, absent_field, aligned, inside, shares, in_place};

use crate::units::{BitAddress, BitCount, ByteCount, HalfWordCount, ORIGIN, WordCount};

// What a field's items are.
#[derive(Clone, Copy, PartialEq)]
pub enum Unit {
    Bit,
    Byte,
    HalfWord,
    Word,
}

// Bits from an address on, and the unit that they are items of. Its end never wraps.
#[derive(Clone, Copy)]
pub struct Field {
    pub base: BitAddress,
    pub bits: BitCount,
    pub unit: Unit,
}

impl Unit {
    // The bits of an item: by cases, as the definition says them, for how wide a unit is is not which one it is.
    fn width(self) -> u64
        ensures { (result ≡ width_of self) × (0 < result) }
    {
        match self {
            Unit::Bit => 1,
            Unit::Byte => 8,
            Unit::HalfWord => 32,
            Unit::Word => 64,
        }
    }
}

impl Field {
    // One for each count, whose type fixes the unit. The new form is no plainer: over a trait each count would have an impl as long as one of these.
    pub fn of_bits(base: BitAddress, items: BitCount) -> Field
        ensures { result ≡ field_of Bit base items.0 }
    {
        let bits = items.shifted();
        Field {
            base,
            bits,
            unit: Unit::Bit,
        }
    }

    pub fn of_bytes(base: BitAddress, items: ByteCount) -> Field
        ensures { result ≡ field_of Byte base items.0 }
    {
        let bits = items.shifted();
        Field {
            base,
            bits,
            unit: Unit::Byte,
        }
    }

    pub fn of_half_words(base: BitAddress, items: HalfWordCount) -> Field
        ensures { result ≡ field_of HalfWord base items.0 }
    {
        let bits = items.shifted();
        Field {
            base,
            bits,
            unit: Unit::HalfWord,
        }
    }

    pub fn of_words(base: BitAddress, items: WordCount) -> Field
        ensures { result ≡ field_of Word base items.0 }
    {
        let bits = items.shifted();
        Field {
            base,
            bits,
            unit: Unit::Word,
        }
    }

    // A field that is not there. Not an Option, which would be no plainer: by §12.19 it is one of no bits, and no check asks for it apart.
    pub fn absent() -> Field
        ensures { result ≡ absent_field }
    {
        Field {
            base: BitAddress(0),
            bits: BitCount(0),
            unit: Unit::Bit,
        }
    }

    // It is empty, or its start is a multiple of its unit.
    pub fn aligned(self) -> bool
        ensures { result ≡ aligned self }
    {
        self.bits.0 == 0 || self.base.0 % self.unit.width() == 0
    }

    // It is empty, or wholly in that many lent bytes. The bytes up to its end are counted, for its end in bits may be past 64.
    pub fn inside(self, lent: ByteCount) -> bool
        ensures { result ≡ inside self lent.0 }
    {
        let bits = self.bits.0;
        let base = self.base.0;
        if bits == 0 {
            true
        } else if base < ORIGIN {
            false
        } else {
            let at = base - ORIGIN;
            let bytes = at / 8 + bits / 8 + (at % 8 + bits % 8 + 7) / 8;
            bytes <= lent.0
        }
    }

    // A bit is in both. Starts are compared by their difference, so no end is computed.
    pub fn shares(self, other: Field) -> bool
        ensures { result ≡ shares self other }
    {
        let n = self.bits.0;
        let m = other.bits.0;
        let a = self.base.0;
        let b = other.base.0;
        if n == 0 {
            false
        } else if m == 0 {
            false
        } else if a < b {
            b - a < n
        } else {
            a - b < m
        }
    }

    // The result may be stored over the source, item by item: the same unit, a word, and the same start.
    pub fn in_place(self, source: Field) -> bool
        ensures { result ≡ in_place self source }
    {
        self.unit == Unit::Word && (source.unit == Unit::Word && self.base.0 == source.base.0)
    }
}
