// What an instruction comes to: its effect on memory or registers, the flags that it raises, and where control goes. One function does an effect.
ghost use Rattle.std.specs.Prelude.{◌≡◌, length};
ghost use Rattle.fields.specs.Field.{store};
ghost use Rattle.instructions.specs.Effects.{half_at, with_half, falls_through};
ghost use Rattle.instructions.specs.Private.Accepted.{Applied, Reaches};

use fields::bytes::{BYTE, WORD};
use fields::memory;
use fields::units::BitAddress;

// What changes. Numbers of registers are those of the word's designators.
#[derive(Clone, Copy)]
pub enum Effect {
    Nothing,
    Register { number: u8, value: u64 },
    HalfRegister { number: u8, value: u32 },
    Byte { at: BitAddress, value: u8 },
    Word { at: BitAddress, value: u64 },
}

#[derive(Clone, Copy)]
pub struct Outcome {
    pub effect: Effect,
    pub flags: u64,
    // A taken target; none where control goes to the word that follows.
    pub target: Option<BitAddress>,
}

impl Outcome {
    // An effect with the flags that it raises; the word that follows is next.
    pub fn falls_through(effect: Effect, flags: u64) -> Outcome
        ensures { result ≡ falls_through effect flags }
    {
        Outcome {
            effect,
            flags,
            target: None,
        }
    }
}

// 2^32: a half word beside another.
const HALF: u64 = 0x1_0000_0000;

// The word of a register with another half: the left one for an even number, the right one for an odd.
fn with_half(word: u64, number: u8, half: u32) -> u64
    ensures { result ≡ store 64 (half_at number) 32 half word }
{
    let value = half as u64;
    if number % 2 == 0 {
        return value * HALF + word % HALF;
    }
    word / HALF * HALF + value
}

// A half-word register is written.
fn put_half(registers: &mut [u64], number: u8, half: u32)
    requires { length registers.old ≡ 256 }
    ensures { registers.new ≡ with_half number half registers.old }
{
    let i = (number / 2) as usize;
    let word = registers[i];
    registers[i] = with_half(word, number, half);
}

// The one step of an instruction that does not go by items. What is stored lies in memory, as the verdict has shown. Every effect is listed.
pub fn apply(effect: Effect, memory: &mut [u8], registers: &mut [u64])
    requires { (length registers.old ≡ 256) × Reaches effect memory.old }
    ensures { Applied effect memory.old registers.old memory.new registers.new }
{
    match effect {
        Effect::Nothing => {}
        Effect::Register { number, value } => registers[number as usize] = value,
        Effect::HalfRegister { number, value } => put_half(registers, number, value),
        Effect::Byte { at, value } => memory::write::<BYTE>(memory, at, value as u64),
        Effect::Word { at, value } => memory::write::<WORD>(memory, at, value),
    }
}
