// The register instructions: what each comes to, from the operands as they stood before it and, for a load, from memory.
ghost use Rattle.std.specs.Prelude.{◌≡◌, length};
ghost use Rattle.fields.specs.Bytes.{num};
ghost use Rattle.instructions.specs.Meanings.{plain};
ghost use Rattle.instructions.specs.Scalars.{to_register, to_half_register, store_byte_of, store_word_of, scalar_of};
ghost use Rattle.instructions.specs.Private.Accepted.{AddressThere};

use crate::effects::{Effect, Outcome};
use crate::instruction::Instruction;
use crate::layout::{byte_at, word_at};
use crate::operands::{Operands, code_in};
use crate::words::part;
use fields::bytes::{BYTE, WORD};
use fields::memory;
use numbers::contracts::contract;
use numbers::flags::Made;
use numbers::whole::whole;
use numbers::{Rounding, words};

fn to_register(number: u8, value: u64) -> Outcome
    ensures { result ≡ to_register number (plain value) }
{
    word_to(
        number,
        Made {
            item: value,
            flags: 0,
        },
    )
}

fn word_to(number: u8, res: Made<u64>) -> Outcome
    ensures { result ≡ to_register number res }
{
    Outcome::falls_through(
        Effect::Register {
            number,
            value: res.item,
        },
        res.flags,
    )
}

// Half a register is an effect of its own, so this is no instance of the one above.
fn half_to(number: u8, res: Made<u32>) -> Outcome
    ensures { result ≡ to_half_register number res }
{
    Outcome::falls_through(
        Effect::HalfRegister {
            number,
            value: res.item,
        },
        res.flags,
    )
}

// Code 13. A byte and a word are effects of their own, so the two stores are not one.
fn store_byte(o: Operands) -> Outcome
    ensures { result ≡ store_byte_of o }
{
    let at = byte_at(o).base;
    let value = (o.a % 256) as u8;
    Outcome::falls_through(Effect::Byte { at, value }, 0)
}

// Code 7F.
fn store_word(o: Operands) -> Outcome
    ensures { result ≡ store_word_of o }
{
    let at = word_at(o).base;
    Outcome::falls_through(Effect::Word { at, value: o.a }, 0)
}

impl Instruction {
    // What an instruction of one step comes to, by its code, the machine's own number: a match is a jump, and a table of functions would say no more. Any other
    // code has no effect here, and a code is a number, so that no list of arms is whole.
    #[tactic(auto, unfolding(crate::specs::Scalars::scalar_of, crate::specs::Table::meaning_of, crate::specs::Private::Accepted::AddressThere))]
    pub(crate) fn outcome(self, m: &[u8]) -> Outcome
        requires { AddressThere self.word self.operands m.now }
        ensures { result ≡ scalar_of self.word self.operands (length m.now) (num m.now) }
    {
        let o = self.operands;
        let t = part(self.word, 32);
        let r = o.g;
        let s = o.x;
        match code_in(self.word) {
            0x12 => to_register(t, memory::read::<BYTE>(m, byte_at(o).base)),
            0x13 => store_byte(o),
            0x2C => to_register(t, words::exclusive_or(r, s)),
            0x2D => to_register(t, words::and(r, s)),
            0x2E => to_register(t, words::inclusive_or(r, s)),
            0x63 => to_register(t, words::add(r, s)),
            0x67 => to_register(t, words::subtract(r, s)),
            0x70 => word_to(t, whole(Rounding::Zero, r)),
            0x71 => word_to(t, whole(Rounding::Down, r)),
            0x72 => word_to(t, whole(Rounding::Up, r)),
            0x76 => half_to(t, contract(r, false)),
            0x77 => half_to(t, contract(r, true)),
            0x78 => to_register(t, r),
            0x7A => to_register(t, words::exponent(r)),
            0x7B => to_register(t, words::pack(r, s)),
            0x7C => to_register(t, words::left16(r)),
            0x7E => to_register(t, memory::read::<WORD>(m, word_at(o).base)),
            0x7F => store_word(o),
            0xB0 | 0xB1 | 0xB2 | 0xB3 | 0xB4 | 0xB5 => self.branch(),
            _ => Outcome::falls_through(Effect::Nothing, 0),
        }
    }
}
