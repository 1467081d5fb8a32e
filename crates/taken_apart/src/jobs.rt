// Three jobs of 64 bytes, from 4000 on.
use crate::lent::Lent;

const EXIT: u64 = 0x0900_0000_0000_0000;

// Vector add: A is register 10, B and C are register 11.
pub const VECTOR_ADD: u64 = 0x8300_0010_0011_0011;

// Vector transmit: A is register 10, C is register 11.
const VECTOR_TRANSMIT: u64 = 0x9800_0010_0000_0011;

// Three days of inflow at 4080 are added to the storage at 4140, in its place; then exit.
pub fn reservoir() -> Lent {
    Lent::new(
        &[VECTOR_ADD, EXIT, 5, 7, 11, 100, 200, 300],
        &[
            (0x10, 0x0003_0000_0000_4080), // the inflow, three words
            (0x11, 0x0003_0000_0000_4140), // the storage
        ],
    )
}

// Two zeros are transmitted over the instruction itself and the word behind it, where then no code stands.
pub fn own_word() -> Lent {
    Lent::new(
        &[VECTOR_TRANSMIT, VECTOR_TRANSMIT, EXIT],
        &[
            (0x10, 0x0002_0000_0000_4100), // two words of zero
            (0x11, 0x0002_0000_0000_4000), // the instruction and the word behind it
        ],
    )
}

// 77 of register 10 to half word 60, which is too large: flags 42 and 46. 2C of 11 and 12 to 31.
const ROUND_AND_DIFFER: u64 = 0x7710_0060_2C11_1231;

// B1: 12 and 11 to 32, against 14; the target is register 13.
const BRANCH: u64 = 0xB100_1112_0013_1432;

// 7E: a word at register 15 plus as many words as register 16 says, to 33.
const LOAD: u64 = 0x7E15_1633_0000_0000;

// Three steps, the last one a branch past an exit to a load of the word behind the memory.
pub fn past_the_end() -> Lent {
    Lent::new(
        &[ROUND_AND_DIFFER, BRANCH, EXIT, LOAD],
        &[
            (0x10, 0x0057_7FFF_FFFF_FFFF), // the largest number that can be contracted, which rounds out of the range
            (0x11, 0x1111_0000_0000_0003), // 3
            (0x12, 0x2222_FFFF_FFFF_FFFE), // -2
            (0x13, 0x0000_0000_0000_40C0), // the load's address
            (0x14, 0x0000_0000_0000_0002), // the sum is 1
            (0x15, 0x0000_0000_0000_4000), // where the memory begins
            (0x16, 0x0000_0000_0000_0008), // how many words it has
        ],
    )
}
