// Figures and tables of fields: the merge of 000, the terminating conditions of both documents, and where the words of figure 1 lie.
use crate::jobs::Case;
use fields::bytes::WORD;
use fields::memory;
use fields::units::BitAddress;
use runs::calls;
use runs::records::Record;
use std::io;

// R, S and T are registers 10, 11 and 12, and exit follows.
const COMPRESS: u64 = 0x1410_1112_0900_0000;

const MERGE: u64 = 0x1510_1112_0900_0000;

const MASK: u64 = 0x1610_1112_0900_0000;

// Segments of eight bits, and a result of 28, so that four bits of the fourth segment are transferred.
const R: u64 = 0x0008_0000_0000_4080;

const S: u64 = 0x0008_0000_0000_4100;

const T: u64 = 0x001C_0000_0000_4180;

// The figure of merge, which has a portion of S2 left over, and what a length of zero does. Field R is A5C3 and field S is 693C.
pub fn bits(out: &impl Print) -> io::Result<()> {
    let sources = [0xA5C3_0000_0000_0000, 0, 0x693C_0000_0000_0000, 0];
    let skipped = "000 3.1.3.5, S length zero, zero R bits skipped";
    for (case, fields) in [
        (
            Case(MERGE, "000 3.2.1.22 figure, R1 S1 R2 and part of S2"),
            [R, S, T],
        ),
        (Case(COMPRESS, skipped), [R, 0x4100, 0x0010_0000_0000_4180]),
        (Case(COMPRESS, "000 3.1.3.5, R length zero"), [0x4080, S, T]),
        (Case(COMPRESS, "000 3.1.3.5, T length zero"), [R, S, 0x4180]),
        (Case(MERGE, "000 3.1.3.5, R length zero"), [0x4080, S, T]),
        (Case(MERGE, "000 3.1.3.5, S length zero"), [R, 0x4100, T]),
        (Case(MERGE, "000 3.1.3.5, T length zero"), [R, S, 0x4180]),
        (Case(MASK, "000 3.1.3.5, R length zero"), [0x4080, S, T]),
        (Case(MASK, "000 3.1.3.5, S length zero"), [R, 0x4100, T]),
        (Case(MASK, "000 3.1.3.5, T length zero"), [R, S, 0x4180]),
    ] {
        case.on_fields(out, fields, sources)?;
    }
    Ok(())
}

// A is the bytes C1 C2 C3, the B designator 40.
pub fn moves(out: &impl Print) -> io::Result<()> {
    for (what, a, c) in [
        (
            "003 table E-1, A exhausted",
            0x0003_0000_0000_4080,
            0x0008_0000_0000_4180,
        ),
        (
            "003 table E-1, A length zero",
            0x4080,
            0x0008_0000_0000_4180,
        ),
        (
            "003 table E-1, C exhausted",
            0x0003_0000_0000_4080,
            0x0002_0000_0000_4180,
        ),
        (
            "003 table E-1, C length zero",
            0x0003_0000_0000_4080,
            0x4180,
        ),
    ] {
        Case(0xF800_0010_0040_0012, what).on_fields(
            out,
            [a, 0, c],
            [0xC1C2_C300_0000_0000, 0, 0, 0],
        )?;
    }
    Ok(())
}

// Each vector instruction on sources of two items, and a result of c items.
fn vectors(out: &impl Print, what: &'static str, c: u64) -> io::Result<()> {
    let fields = [0x0002_0000_0000_4080, 0x0002_0000_0000_4100, c];
    for word in [
        0x8300_0010_0011_0012,
        0x8700_0010_0011_0012,
        0x8A00_0010_0011_0012,
        0x9000_0010_0000_0012,
        0x9100_0010_0000_0012,
        0x9200_0010_0000_0012,
        0x9600_0010_0000_0012,
        0x9700_0010_0000_0012,
        0x9800_0010_0000_0012,
    ] {
        Case(word, what).on_fields(out, fields, [0x0100, 0x0100, 4, 4])?;
    }
    Ok(())
}

// The instruction ends with C: the second item is not altered, or neither.
pub fn vectors_end(out: &impl Print) -> io::Result<()> {
    vectors(out, "000 3.1.3.5, C exhausted", 0x0001_0000_0000_4180)?;
    vectors(out, "000 3.1.3.5, C length zero", 0x4180)
}

// Figure 1 gives the bit addresses of words 1, 2, 7F, 80 and FF from a base of zero. The base is 4000 here, since the figure's own words are registers.
// Each place is written and read by itself: that it lies in memory is proved of the number that stands there, and in an array nothing would be known of it.
const NUMBERS: [u64; 5] = [0x01, 0x02, 0x7F, 0x80, 0xFF];

pub fn loads(out: &impl Print) -> io::Result<()> {
    let case = Case(
        0x7E10_1112_0900_0000,
        "000 3.1.7 figure 1, S and the word loaded",
    );
    for s in NUMBERS {
        let mut m = [0u8; 2048];
        memory::write::<WORD>(&mut m, BitAddress(0x4000), case.0);
        memory::write::<WORD>(&mut m, BitAddress(0x4040), 0x01);
        memory::write::<WORD>(&mut m, BitAddress(0x4080), 0x02);
        memory::write::<WORD>(&mut m, BitAddress(0x4000 + 0x1FC0), 0x7F);
        memory::write::<WORD>(&mut m, BitAddress(0x4000 + 0x2000), 0x80);
        memory::write::<WORD>(&mut m, BitAddress(0x4000 + 0x3FC0), 0xFF);
        let mut registers = [0u64; 256];
        registers[0x10] = 0x4000;
        registers[0x11] = s;
        calls::run(&mut m, &mut registers, Record::between(0x4000, 0), 9);
        case.begin(out)?;
        println!(out; " {s:02x} {:02x}", registers[0x12])?;
    }
    Ok(())
}

// What the five places hold after a 1 is stored S words behind the base.
pub fn stores(out: &impl Print) -> io::Result<()> {
    let case = Case(
        0x7F10_1112_0900_0000,
        "000 3.1.7 figure 1, S and the words at 40, 80, 1FC0, 2000, 3FC0",
    );
    for s in NUMBERS {
        let mut m = [0u8; 2048];
        memory::write::<WORD>(&mut m, BitAddress(0x4000), case.0);
        let mut registers = [0u64; 256];
        registers[0x10] = 0x4000;
        registers[0x11] = s;
        registers[0x12] = 1;
        calls::run(&mut m, &mut registers, Record::between(0x4000, 0), 9);
        let at_40 = memory::read::<WORD>(&m, BitAddress(0x4040));
        let at_80 = memory::read::<WORD>(&m, BitAddress(0x4080));
        let at_1fc0 = memory::read::<WORD>(&m, BitAddress(0x4000 + 0x1FC0));
        let at_2000 = memory::read::<WORD>(&m, BitAddress(0x4000 + 0x2000));
        let at_3fc0 = memory::read::<WORD>(&m, BitAddress(0x4000 + 0x3FC0));
        case.begin(out)?;
        println!(out; " {s:02x} {at_40:x} {at_80:x} {at_1fc0:x} {at_2000:x} {at_3fc0:x}")?;
    }
    Ok(())
}
