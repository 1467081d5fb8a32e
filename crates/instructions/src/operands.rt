// The operands of an instruction: what the registers that its designators name supply.
ghost use Rattle.std.specs.Prelude.{◌≡◌, ◌/◌, ◌%◌, ◌^◌, ◌≤◌, length};
ghost use Rattle.instructions.specs.Operands.{code_in, g_bit, supplied, gathered};

use crate::words::part;

// What number 00 supplies. Its low 48 are zero: no index, no offset, a zero to compare with.
const MACHINE_ZERO: u64 = 0x8000_0000_0000_0000;

// One value for each designator of a 64-bit word. R, S and T of a 32-bit word are g, x and a, and the others are those of number 00.
#[derive(Clone, Copy)]
pub struct Operands {
    pub g: u64,
    pub x: u64,
    pub a: u64,
    pub y: u64,
    pub b: u64,
    pub z: u64,
    pub c: u64,
}

// The function of a word.
pub fn code_in(word: u64) -> u8
    ensures { result ≡ code_in word }
{
    part(word, 56)
}

// Bit k of G, from the left.
pub fn g_bit(word: u64, k: u64) -> bool
    ensures { result ≡ g_bit k word }
{
    (word >> 55u64.saturating_sub(k)) % 2 == 1
}

// What the register supplies that this designator names. The registers are a slice, as a host lends them, here and where they are written: that there are 256
// is asked, for a slice becomes no array of 256 without a test or a copy.
#[tactic(auto, unfolding(crate::specs::Operands::supplied))]
fn operand(registers: &[u64], word: u64, right: u64) -> u64
    requires { (length registers.now ≡ 256) × (right ≤ 56) }
    ensures { result ≡ supplied registers.now (word / 2 ^ right % 256) }
{
    let t = part(word, right);
    if t == 0 {
        return MACHINE_ZERO;
    }
    registers[t as usize]
}

// A word whose right half is zero, as that of every 32-bit instruction is, names three registers at most.
pub fn gather(word: u64, registers: &[u64]) -> Operands
    requires { length registers.now ≡ 256 }
    ensures { result ≡ gathered word registers.now }
{
    let g = operand(registers, word, 48);
    let x = operand(registers, word, 40);
    let a = operand(registers, word, 32);
    if word % 0x1_0000_0000 == 0 {
        return Operands {
            g,
            x,
            a,
            y: MACHINE_ZERO,
            b: MACHINE_ZERO,
            z: MACHINE_ZERO,
            c: MACHINE_ZERO,
        };
    }
    let y = operand(registers, word, 24);
    let b = operand(registers, word, 16);
    let z = operand(registers, word, 8);
    let c = operand(registers, word, 0);
    Operands {
        g,
        x,
        a,
        y,
        b,
        z,
        c,
    }
}
