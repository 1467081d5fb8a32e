// What refuses an instruction: the first of 4, 5, 6, 7, 1 and 8 to 11 that applies (docs/MACHINE.md, section 12).
ghost use Rattle.std.specs.Prelude.{◌≡◌, length, Ok};
ghost use Rattle.fields.specs.Bytes.{num};
ghost use Rattle.instructions.specs.Fetch.{fetch_of};
ghost use Rattle.instructions.specs.Verdict.{off_half_words, misaligned, outside, clash, overlapping, stop_number, said_number, verdict_of};
ghost use Rattle.instructions.specs.Words.{refusal_number, decoded};
ghost use Rattle.instructions.specs.Private.Inner.{refusal_of, aligned_inside, one_step_of, cut_off};
ghost use Rattle.instructions.specs.Instruction.{one_step, may_work};

use crate::fetch::{is_long, unfetched};
use crate::instruction::Instruction;
use crate::layout::{Fields, byte_at, word_at};
use crate::operands::code_in;
use crate::table::{Kind, Row};
use crate::words::{Refusal, decode};
use fields::extents::Field;
use fields::units::{BitAddress, ByteCount};

// What ends a run at an instruction.
#[derive(Clone, Copy, PartialEq, Eq)]
pub enum Stop {
    Exit, // 1: a 09
    Refused(Refusal),
}

impl From<Refusal> for Stop {
    ghost use Rattle.instructions.specs.declared.verdict.Stop.TheVariants.{Refused};

    ghost from_gives = { λ why stop. stop ≡ Refused why };

    fn from(refusal: Refusal) -> Stop {
        Stop::Refused(refusal)
    }
}

impl Stop {
    // The number that a call says.
    pub fn number(self) -> u64
        ensures { result ≡ stop_number self }
    {
        match self {
            Stop::Exit => 1,
            Stop::Refused(why) => why.number(),
        }
    }
}

// A target that is no multiple of 32.
fn off_half_words(target: Option<BitAddress>) -> bool
    ensures { result ≡ off_half_words target }
{
    match target {
        None => false,
        Some(to) => to.0 % 32 != 0,
    }
}

// Refusal 8. Bits need no alignment, so the control field is not asked.
#[tactic(auto, unfolding(crate::specs::Verdict::misaligned))]
fn misaligned(f: Fields) -> bool
    ensures { result ≡ misaligned f }
{
    off_half_words(f.target) | (!f.result.aligned() | (!f.first.aligned() | !f.second.aligned()))
}

// Refusal 10.
#[tactic(auto, unfolding(crate::specs::Verdict::outside))]
fn outside(f: Fields, lent: ByteCount) -> bool
    ensures { result ≡ outside f lent.0 }
{
    !f.result.inside(lent)
        | (!f.first.inside(lent) | (!f.second.inside(lent) | !f.control.inside(lent)))
}

fn clash(res: Field, source: Field) -> bool
    ensures { result ≡ clash res source }
{
    res.shares(source) && !res.in_place(source)
}

// Refusal 11.
#[tactic(auto, unfolding(crate::specs::Verdict::overlapping))]
fn overlapping(f: Fields) -> bool
    ensures { result ≡ overlapping f }
{
    clash(f.result, f.first) | (clash(f.result, f.second) | f.result.shares(f.control))
}

// The first of refusals 8 to 11. An instruction whose fields are all empty passes.
#[tactic(auto, unfolding(crate::specs::Private::Inner::refusal_of))]
fn refusal(f: Fields, lent: ByteCount) -> Result<(), Refusal>
    ensures { said_number refusal_number result ≡ refusal_of f lent.0 }
{
    if misaligned(f) {
        return Err(Refusal::Misaligned);
    }
    if f.short {
        return Err(Refusal::Short);
    }
    if outside(f, lent) {
        return Err(Refusal::Outside);
    }
    if overlapping(f) {
        return Err(Refusal::Shared);
    }
    Ok(())
}

// Refusals 8 and 10 do not meet the one field of a load or a store.
fn reached(f: Field, lent: ByteCount) -> bool
    ensures { result ≡ aligned_inside f lent.0 }
{
    f.aligned() & f.inside(lent)
}

// Of a listed word that was fetched at P the first half is there: 4 is for the right half of a long one.
fn cut_off(p: BitAddress, long: bool, lent: ByteCount) -> bool
    ensures { result ≡ cut_off p.0 long lent.0 }
{
    long && unfetched(p, true, lent)
}

impl Instruction {
    // The first that applies of 4, 1, 8, 9, 10, 11, of a listed word.
    fn verdict_listed(self, row: Row, lent: ByteCount) -> Result<(), Stop>
        requires { decoded self.word ≡ Ok row }
        ensures { said_number stop_number result ≡ verdict_of self.p.0 self.word self.operands lent.0 }
    {
        if unfetched(self.p, row.long(), lent) {
            return Err(Stop::Refused(Refusal::NotThere));
        }
        if code_in(self.word) == 0x09 {
            return Err(Stop::Exit);
        }
        refusal(self.fields(row.kind()), lent)?;
        Ok(())
    }

    // The first that applies of 4, 5, 6, 7, 1, 8, 9, 10, 11.
    pub fn verdict(self, lent: ByteCount) -> Result<(), Stop>
        ensures { said_number stop_number result ≡ verdict_of self.p.0 self.word self.operands lent.0 }
    {
        match decode(self.word) {
            Ok(row) => self.verdict_listed(row, lent),
            Err(why) => {
                if unfetched(self.p, is_long(self.word), lent) {
                    return Err(Stop::Refused(Refusal::NotThere));
                }
                Err(Stop::Refused(why))
            }
        }
    }

    // No check refuses the word, and it goes by items.
    pub fn may_work(self, lent: ByteCount) -> bool
        ensures { result ≡ may_work self.p.0 self.word self.operands lent.0 }
    {
        let Ok(row) = decode(self.word) else {
            return false;
        };
        row.has_items() && self.verdict_listed(row, lent).is_ok()
    }

    // A listed word of this kind takes one step, and none of 8 to 11 refuses it. Every kind is listed, which a list of closures would not ask for.
    #[tactic(auto, unfolding(crate::specs::Private::Inner::one_step_of))]
    fn one_step_of(self, kind: Kind, lent: ByteCount) -> bool
        ensures { result ≡ one_step_of kind self.word self.operands lent.0 }
    {
        let o = self.operands;
        match kind {
            Kind::Register => true,
            Kind::Branch => !off_half_words(self.goes_to()),
            Kind::LoadByte | Kind::StoreByte => reached(byte_at(o), lent),
            Kind::LoadWord | Kind::StoreWord => reached(word_at(o), lent),
            Kind::Exit
            | Kind::Compress
            | Kind::Merge
            | Kind::Mask
            | Kind::TwoSources
            | Kind::OneSource
            | Kind::HalfResult
            | Kind::Move => false,
        }
    }

    // No check refuses the word that was fetched at P, and it does not go by items.
    pub fn one_step(self, memory: &[u8]) -> bool
        requires { self.word ≡ fetch_of (length memory.now) (num memory.now) self.p.0 }
        ensures { result ≡ one_step self.p.0 self.word self.operands (length memory.now) }
    {
        let lent = ByteCount(memory.len() as u64);
        let Ok(row) = decode(self.word) else {
            return false;
        };
        !cut_off(self.p, row.long(), lent) && self.one_step_of(row.kind(), lent)
    }
}
