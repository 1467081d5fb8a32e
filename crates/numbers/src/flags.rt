// The data flags, in the data flag register's own places, and an item with the flags that it sets.

// Flag 42: an exponent that is too large.
pub const FLAG_42: u64 = 0x20_0000;

// Flag 43: a result that is machine zero.
pub const FLAG_43: u64 = 0x10_0000;

// Flag 46: a result that is indefinite.
pub const FLAG_46: u64 = 0x2_0000;

// An item that is made, a word or a half word, with the flags that it sets.
#[derive(Clone, Copy)]
pub struct Made<T> {
    pub item: T,
    pub flags: u64,
}
