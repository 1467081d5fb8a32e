// Items of the lent memory by index, from 0 at the left: k is an index of the slice, and a bit's index is eight times its byte's and its place there.
// These ask for bounds. `memory` calls them, the loops of the instructions layer, which step by bytes and not by addresses, and programs.
ghost use Rattle.std.specs.Prelude.{◌≡◌, ◌+◌, ◌*◌, ◌%◌, ◌^◌, ◌≤◌, ◌<◌, length};
ghost use Rattle.fields.specs.Field.{field, store};
ghost use Rattle.fields.specs.Bytes.{num, size};
ghost use Rattle.fields.specs.Memory.{Kept};

// The bytes of an item, for WIDTH below.
pub const BYTE: usize = 1;

pub const HALF_WORD: usize = 4;

pub const WORD: usize = 8;

// The item of WIDTH bytes from byte k on: one load and a byte swap.
pub fn read<const WIDTH: usize>(m: &[u8], k: usize) -> u64
    requires { (WIDTH ≤ 8) × (k + WIDTH ≤ length m.now) }
    ensures { result ≡ field (size m.now) (8 * k) (8 * WIDTH) (num m.now) }
{
    let mut number = [0u8; 8];
    number[8 - WIDTH..].copy_from_slice(&m[k..k + WIDTH]);
    u64::from_be_bytes(number)
}

// v to that item. It is moved to the left first, so that a half word is swapped in 32 bits and not in 64.
pub fn put<const WIDTH: usize>(m: &mut [u8], k: usize, v: u64)
    requires { (0 < WIDTH) × (WIDTH ≤ 8) × (k + WIDTH ≤ length m.old) × (v < 2 ^ (8 * WIDTH)) }
    ensures { Kept m.old (8 * k) (8 * WIDTH) v m.new }
{
    let number = (v << (64 - 8 * WIDTH)).to_be_bytes();
    m[k..k + WIDTH].copy_from_slice(&number[..WIDTH]);
}

// The bit at index `at`.
pub fn bit(m: &[u8], at: usize) -> u64
    requires { at < size m.now }
    ensures { result ≡ field (size m.now) at 1 (num m.now) }
{
    let b = m[at / 8] as u64;
    (b >> (7 - at % 8)) % 2
}

// The byte b with v for its bit j, counted from the left. A bit is a number as every item is, for the loops above work with numbers.
fn with_bit(b: u8, j: usize, v: u64) -> u8
    requires { (j < 8) × (v < 2) }
    ensures { result ≡ store 8 j 1 v b }
{
    let x = b as u64;
    let held = x & (1 << (7 - j));
    (x - held + (v << (7 - j))) as u8
}

// v, a bit, to the bit at index `at`.
pub fn put_bit(m: &mut [u8], at: usize, v: u64)
    requires { (at < size m.old) × (v < 2) }
    ensures { Kept m.old at 1 v m.new }
{
    m[at / 8] = with_bit(m[at / 8], at % 8, v);
}
