// Reads and writes at the corners of a small memory; extents and overlaps at the corners of the address space.
use fields::bytes::{BYTE, HALF_WORD, WORD};
use fields::extents::Field;
use fields::gathers::{Rule, Runs};
use fields::memory;
use fields::units::{BitAddress, BitCount, ByteCount, HalfWordCount, WordCount};
use std::io;

fn tell(out: &impl Print, values: &[(&str, u64)]) -> io::Result<()> {
    for (what, value) in values {
        println!(out; "{what}: {value:x}")?;
    }
    Ok(())
}

fn yes_or_no(out: &impl Print, what: &str, value: bool) -> io::Result<()> {
    let answer = if value { "yes" } else { "no" };
    println!(out; "{what}: {answer}")
}

// Sixteen bytes, of which each width is stored at the last place that it has, and the first bit and the last bit are set. Each place is written and read by
// itself: that it lies in memory is proved of the number that stands there, and in an array nothing would be known of it.
pub fn reads_and_writes(out: &impl Print) -> io::Result<()> {
    let mut m = [0u8; 16];
    memory::write::<WORD>(&mut m, BitAddress(0x4040), 0x0123_4567_89AB_CDEF);
    let word = memory::read::<WORD>(&m, BitAddress(0x4040));
    memory::write::<HALF_WORD>(&mut m, BitAddress(0x4060), 0xFEDC_BA98);
    let left = memory::read::<HALF_WORD>(&m, BitAddress(0x4040));
    let right = memory::read::<HALF_WORD>(&m, BitAddress(0x4060));
    memory::write::<BYTE>(&mut m, BitAddress(0x4078), 0x10);
    let byte_before = memory::read::<BYTE>(&m, BitAddress(0x4070));
    let byte = memory::read::<BYTE>(&m, BitAddress(0x4078));
    memory::write_bit(&mut m, BitAddress(0x4000), 1);
    memory::write_bit(&mut m, BitAddress(0x407F), 1);
    tell(
        out,
        &[
            ("word 4040", word),
            ("half word 4040", left),
            ("half word 4060", right),
            ("byte 4070", byte_before),
            ("byte 4078", byte),
            ("bit 4000", memory::read_bit(&m, BitAddress(0x4000))),
            ("bit 4001", memory::read_bit(&m, BitAddress(0x4001))),
            ("bit 407e", memory::read_bit(&m, BitAddress(0x407E))),
            ("bit 407f", memory::read_bit(&m, BitAddress(0x407F))),
            ("word 4000", memory::read::<WORD>(&m, BitAddress(0x4000))),
            ("word 4040", memory::read::<WORD>(&m, BitAddress(0x4040))),
        ],
    )
}

// Counts that shift past 48 bits, and an address that wraps.
pub fn counts(out: &impl Print) -> io::Result<()> {
    let last = BitAddress(0xFFFF_FFFF_FFFF);
    tell(
        out,
        &[
            ("bits", BitCount(0x1_0000_0000_0001).shifted().0),
            ("bytes", ByteCount(0x2000_0000_0001).shifted().0),
            ("half words", HalfWordCount(0xFFFF).shifted().0),
            ("words", WordCount(0xFFFF).shifted().0),
            ("last address and one", last.plus(BitCount(1)).0),
        ],
    )
}

// 65,535 items of each unit, at the ends of a memory of 65,536 bytes and of the address space.
pub fn extents(out: &impl Print) -> io::Result<()> {
    let lent = ByteCount(65536);
    let words = Field::of_words(BitAddress(0x4000), WordCount(65535));
    yes_or_no(out, "65535 words inside", words.inside(lent))?;
    let bytes = Field::of_bytes(BitAddress(0x4008), ByteCount(65535));
    yes_or_no(out, "65535 bytes inside", bytes.inside(lent))?;
    let one_late = Field::of_bytes(BitAddress(0x4010), ByteCount(65535));
    yes_or_no(
        out,
        "65535 bytes a byte later inside",
        one_late.inside(lent),
    )?;
    let last = Field::of_words(BitAddress(0x8_3FC0), WordCount(1));
    yes_or_no(out, "last word inside", last.inside(lent))?;
    let after = Field::of_words(BitAddress(0x8_4000), WordCount(1));
    yes_or_no(out, "word after inside", after.inside(lent))?;
    let registers = Field::of_bits(BitAddress(0x3FFF), BitCount(2));
    yes_or_no(out, "last register bit inside", registers.inside(lent))?;
    let far = Field::of_words(BitAddress(0xFFFF_FFFF_FFC0), WordCount(65535));
    yes_or_no(out, "words past the last address inside", far.inside(lent))?;
    let odd = Field::of_half_words(BitAddress(0x4010), HalfWordCount(1));
    yes_or_no(out, "half word 4010 aligned", odd.aligned())?;
    let none = Field::of_words(BitAddress(1), WordCount(0));
    yes_or_no(out, "no words at 1 aligned", none.aligned())?;
    yes_or_no(out, "no words at 1 inside", none.inside(lent))
}

// Overlaps, a bit at either end.
pub fn overlaps(out: &impl Print) -> io::Result<()> {
    let words = Field::of_words(BitAddress(0x4040), WordCount(65535));
    let before = Field::of_bits(BitAddress(0x403F), BitCount(1));
    let first = Field::of_bits(BitAddress(0x4040), BitCount(1));
    let last = Field::of_bits(BitAddress(0x40_3FFF), BitCount(1));
    let after = Field::of_bits(BitAddress(0x40_4000), BitCount(1));
    yes_or_no(out, "bit before shared", words.shares(before))?;
    yes_or_no(out, "first bit shared", words.shares(first))?;
    yes_or_no(out, "last bit shared", words.shares(last))?;
    yes_or_no(out, "bit after shared", words.shares(after))?;
    let far = Field::of_words(BitAddress(0xFFFF_FFFF_FFC0), WordCount(65535));
    yes_or_no(out, "end past the last address shared", far.shares(words))?;
    let same = Field::of_words(BitAddress(0x4040), WordCount(1));
    yes_or_no(out, "same start in place", words.in_place(same))?;
    let half = Field::of_half_words(BitAddress(0x4040), HalfWordCount(1));
    yes_or_no(out, "half words in place", half.in_place(words))
}

// How far examples 10 to 12 read, and the longest runs.
pub fn gathers(out: &impl Print) -> io::Result<()> {
    let five = Runs { r: 2, s: 1, n: 5 };
    let six = Runs { r: 2, s: 1, n: 6 };
    let two = Runs { r: 2, s: 1, n: 2 };
    let none = Runs { r: 0, s: 1, n: 5 };
    let long = Runs {
        r: 1,
        s: 65535,
        n: 65535,
    };
    tell(
        out,
        &[
            ("compress 2 1 5 reads of R", five.of_r(Rule::Compress).0),
            ("merge 2 1 6 reads of R", six.of_r(Rule::Merge).0),
            ("merge 2 1 6 reads of S", six.of_s(Rule::Merge).0),
            ("mask 2 1 6 reads of R", six.of_r(Rule::Mask).0),
            ("mask 2 1 6 reads of S", six.of_s(Rule::Mask).0),
            ("merge 2 1 2 reads of S", two.of_s(Rule::Merge).0),
            ("compress 0 1 5 reads of R", none.of_r(Rule::Compress).0),
            (
                "compress 1 65535 65535 reads of R",
                long.of_r(Rule::Compress).0,
            ),
        ],
    )
}
