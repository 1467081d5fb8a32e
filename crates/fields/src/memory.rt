// The lent memory at bit addresses. Each read and write asks that its place lies in memory and, but for a bit, begins with a byte: a caller proves that it
// does, as the layer above does by its verdict. Each contract says what is read, and what memory holds afterwards in every bit.
ghost use Rattle.std.specs.Prelude.{◌≡◌, ◌-◌, ◌*◌, ◌^◌, ◌≤◌, ◌<◌};
ghost use Rattle.fields.specs.Memory.{right_length, origin, InMemory, AtByte, field_at, Stored};

use crate::bytes;
use crate::units::{BitAddress, ByteCount, ORIGIN};

// May memory have this length?
pub fn lent_length_is_right(length: ByteCount) -> bool
    ensures { result ≡ right_length length.0 }
{
    (8 <= length.0) & (length.0 <= 65536) & (length.0 % 8 == 0)
}

// The index of an address: 0 is the left bit of the first lent byte. The origin is taken off here alone.
fn offset(a: BitAddress) -> usize
    requires { origin ≤ a.0 }
    ensures { result ≡ a.0 - origin }
{
    (a.0 - ORIGIN) as usize
}

pub fn read_bit(m: &[u8], a: BitAddress) -> u64
    requires { InMemory m.now a.0 1 }
    ensures { result ≡ field_at m.now a.0 1 }
{
    bytes::bit(m, offset(a))
}

pub fn write_bit(m: &mut [u8], a: BitAddress, v: u64)
    requires { InMemory m.old a.0 1 × (v < 2) }
    ensures { Stored m.old a.0 1 v m.new }
{
    bytes::put_bit(m, offset(a), v)
}

// The item of WIDTH bytes at an address: bytes::BYTE, bytes::HALF_WORD or bytes::WORD of them. That WIDTH is at most 8 no value can carry.
pub fn read<const WIDTH: usize>(m: &[u8], a: BitAddress) -> u64
    requires { (WIDTH ≤ 8) × AtByte m.now a.0 (8 * WIDTH) }
    ensures { result ≡ field_at m.now a.0 (8 * WIDTH) }
{
    bytes::read::<WIDTH>(m, offset(a) / 8)
}

pub fn write<const WIDTH: usize>(m: &mut [u8], a: BitAddress, v: u64)
    requires { (0 < WIDTH) × (WIDTH ≤ 8) × AtByte m.old a.0 (8 * WIDTH) × (v < 2 ^ (8 * WIDTH)) }
    ensures { Stored m.old a.0 (8 * WIDTH) v m.new }
{
    bytes::put::<WIDTH>(m, offset(a) / 8, v)
}
