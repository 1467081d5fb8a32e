// A bit address, and counts of bits, bytes, half words and words. None stands in for another: each count turns into bits by its own shift, and an
// address moves by bits alone.
ghost use Rattle.std.specs.Prelude.{◌≡◌};
ghost use Rattle.fields.specs.Units.{in_bits, formed};

// Addresses and counts have 48 bits.
pub const WRAP: u64 = 0x1_0000_0000_0000;

// The first bit address of memory, the left bit of the first lent byte. Those below it are the registers'.
pub const ORIGIN: u64 = 0x4000;

#[derive(Clone, Copy)]
pub struct BitAddress(pub u64);

// A tuple struct for each unit, with one shift of its own, so that none stands in for another: the form of this place is not to change (decision 78).
#[derive(Clone, Copy)]
pub struct BitCount(pub u64);

#[derive(Clone, Copy)]
pub struct ByteCount(pub u64);

#[derive(Clone, Copy)]
pub struct HalfWordCount(pub u64);

#[derive(Clone, Copy)]
pub struct WordCount(pub u64);

impl BitAddress {
    // The address that many bits on.
    pub fn plus(self, n: BitCount) -> BitAddress
        ensures { result.0 ≡ formed self.0 n.0 }
    {
        BitAddress((self.0 % WRAP + n.0 % WRAP) % WRAP)
    }
}

impl BitCount {
    pub fn shifted(self) -> BitCount
        ensures { result.0 ≡ in_bits 0 self.0 }
    {
        BitCount(self.0 % WRAP)
    }
}

impl ByteCount {
    pub fn shifted(self) -> BitCount
        ensures { result.0 ≡ in_bits 3 self.0 }
    {
        BitCount((self.0 << 3) % WRAP)
    }
}

impl HalfWordCount {
    pub fn shifted(self) -> BitCount
        ensures { result.0 ≡ in_bits 5 self.0 }
    {
        BitCount((self.0 << 5) % WRAP)
    }
}

impl WordCount {
    pub fn shifted(self) -> BitCount
        ensures { result.0 ≡ in_bits 6 self.0 }
    {
        BitCount((self.0 << 6) % WRAP)
    }
}
