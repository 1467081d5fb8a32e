// Compare and branch: codes B0 to B5.
ghost use Rattle.std.specs.Prelude.{◌≡◌};
ghost use Rattle.instructions.specs.Meanings.{less, same};
ghost use Rattle.instructions.specs.Table.{meaning_of};
ghost use Rattle.instructions.specs.Branches.{compares_by, branch_sum, taken_of, target_of, goes_to, branch_of};

use crate::effects::{Effect, Outcome};
use crate::instruction::Instruction;
use crate::operands::{Operands, code_in, g_bit};
use crate::words::part;
use fields::units::{BitAddress, HalfWordCount, WRAP};
use numbers::number::Number;
use numbers::words;

// Low 48 of m is less than low 48 of n.
fn less(unsigned: bool, m: u64, n: u64) -> bool
    ensures { result ≡ less unsigned m n }
{
    if unsigned {
        m % WRAP < n % WRAP
    } else {
        Number::from(m).coefficient < Number::from(n).coefficient
    }
}

// Their low 48 are the same: of words that is not `==`.
fn same(m: u64, n: u64) -> bool
    ensures { result ≡ same m n }
{
    m % WRAP == n % WRAP
}

// EQ NE GE LT LE GT, by the code, the machine's own number: a match is a jump.
#[tactic(auto, unfolding(crate::specs::Table::meaning_of))]
fn compare(code: u8, unsigned: bool, m: u64, n: u64) -> bool
    ensures { result ≡ compares_by (meaning_of code) unsigned m n }
{
    match code {
        0xB0 => same(m, n),
        0xB1 => !same(m, n),
        0xB2 => !less(unsigned, m, n),
        0xB3 => less(unsigned, m, n),
        0xB4 => !less(unsigned, n, m),
        0xB5 => less(unsigned, n, m),
        _ => false, // no branch's code
    }
}

fn sum(o: Operands) -> u64
    ensures { result ≡ branch_sum o }
{
    words::add(o.a, o.x)
}

fn target(o: Operands) -> BitAddress
    ensures { result ≡ target_of o }
{
    BitAddress(o.b).plus(HalfWordCount(o.y).shifted())
}

impl Instruction {
    #[tactic(auto, unfolding(crate::specs::Branches::taken_of))]
    fn taken(self) -> bool
        ensures { result ≡ taken_of self.word self.operands }
    {
        let o = self.operands;
        compare(code_in(self.word), g_bit(self.word, 4), sum(o), o.z)
    }

    // The target, if the branch is taken. A call would put the whole instruction into memory at every step: a tenth more machine instructions.
    #[inline(always)]
    pub(crate) fn goes_to(self) -> Option<BitAddress>
        ensures { result ≡ goes_to self.word self.operands }
    {
        if self.taken() {
            Some(target(self.operands))
        } else {
            None
        }
    }

    // The sum goes to C, taken or not.
    #[tactic(auto, unfolding(crate::specs::Branches::branch_of))]
    pub(crate) fn branch(self) -> Outcome
        ensures { result ≡ branch_of self.word self.operands }
    {
        Outcome {
            effect: Effect::Register {
                number: part(self.word, 0),
                value: sum(self.operands),
            },
            flags: 0,
            target: self.goes_to(),
        }
    }
}
