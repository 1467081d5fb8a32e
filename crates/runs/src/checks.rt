// What is checked before any step: refusal 2, of the lengths, and refusal 3, of the record.
ghost use Rattle.std.specs.Prelude.{◌≡◌, length};
ghost use Rattle.runs.specs.Records.{flags_right, place_right, between_two, half_done, possible};
ghost use Rattle.runs.specs.Calls.{lengths_right};
ghost use Rattle.runs.specs.Private.Inner.{holding, goes_on};

use crate::fetches::held;
use crate::records::Record;
use fields::memory::lent_length_is_right;
use fields::units::{ByteCount, WRAP};
use instructions::instruction::Instruction;
use numbers::flags::{FLAG_42, FLAG_43, FLAG_46};

// The flags that a record may have.
const FLAGS: u64 = FLAG_42 | FLAG_43 | FLAG_46;

// Whether a memory and a register file of these lengths may be lent.
#[tactic(auto, unfolding(crate::specs::Calls::lengths_right))]
pub fn lengths_right(bytes: usize, registers: usize) -> bool
    ensures { result ≡ lengths_right bytes registers }
{
    lent_length_is_right(ByteCount(bytes as u64)) && registers == 256
}

// Whether only those flags are set.
#[tactic(auto, unfolding(crate::specs::Records::flags_right))]
fn flags_right(flags: u64) -> bool
    ensures { result ≡ flags_right flags }
{
    flags | FLAGS == FLAGS
}

// Whether P is an address of 48 bits, at a half word.
#[tactic(auto, unfolding(crate::specs::Records::place_right))]
fn place_right(p: u64) -> bool
    ensures { result ≡ place_right p }
{
    p < WRAP && p % 32 == 0
}

// Whether nothing is half done, and nothing is held.
#[tactic(auto, unfolding(crate::specs::Records::between_two))]
fn between_two(rec: Record) -> bool
    ensures { result ≡ between_two rec }
{
    rec.mark == 0 && rec.word == 0 && rec.items == 0
}

// Whether it is a vector, bit or move instruction that passes its checks, so many of its items done, and not all.
#[tactic(auto, unfolding(crate::specs::Private::Inner::holding))]
fn holding(it: Instruction, items: u64, lent: ByteCount) -> bool
    ensures { result ≡ holding lent.0 it items }
{
    it.may_work(lent) && 1 <= items && items < it.count()
}

// Whether a record is marked and holds such a word, with the operands that the registers supply.
#[tactic(auto, unfolding(crate::specs::Records::half_done, crate::specs::Private::Inner::holding, instructions::specs::Instruction::may_work))]
pub fn half_done(rec: Record, lent: ByteCount, registers: &[u64]) -> bool
    requires { length registers.now ≡ 256 }
    ensures { result ≡ half_done lent.0 registers.now rec }
{
    rec.mark == 1 && holding(held(registers, rec), rec.items, lent)
}

// Whether a record with the mark is possible, with what it holds.
#[tactic(auto, unfolding(crate::specs::Private::Inner::goes_on))]
pub fn goes_on(rec: Record, it: Instruction, lent: ByteCount) -> bool
    ensures { result ≡ goes_on lent.0 it rec }
{
    place_right(rec.p) && flags_right(rec.flags) && holding(it, rec.items, lent)
}

// Whether a record is possible with these registers: between two instructions, or half done.
#[tactic(auto, unfolding(crate::specs::Records::possible))]
pub fn possible(rec: Record, lent: ByteCount, registers: &[u64]) -> bool
    requires { length registers.now ≡ 256 }
    ensures { result ≡ possible lent.0 registers.now rec }
{
    place_right(rec.p)
        && flags_right(rec.flags)
        && (between_two(rec) || half_done(rec, lent, registers))
}
