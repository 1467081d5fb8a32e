// The plan of a vector, bit or move instruction, from its word and operands.
ghost use Rattle.std.specs.Prelude.{◌≡◌, eqb};
ghost use Rattle.fields.specs.Field.{field};
ghost use Rattle.instructions.specs.Planned.{place_of, source_in, control_in, vector_in, second_in, bits_in, move_in};

use crate::instruction::Instruction;
use crate::items::{BitPlan, Gated, MovePlan, Source, VectorPlan};
use crate::layout::{base_in, length_in, plus_bytes, runs};
use crate::operands::g_bit;
use crate::words::part;
use fields::gathers::Rule;
use fields::units::{BitAddress, ORIGIN};

// The bits of memory left of an address. One that is not in memory is no field's that has items.
fn place(a: BitAddress) -> usize
    ensures { result ≡ place_of a.0 }
{
    a.0.saturating_sub(ORIGIN) as usize
}

fn source(broadcast: bool, d: u64) -> Source
    ensures { result ≡ source_in broadcast d }
{
    if broadcast {
        return Source::Value(d);
    }
    Source::Field(place(base_in(d)))
}

fn control(word: u64, z: u64) -> Option<Gated>
    ensures { result ≡ control_in word z }
{
    if part(word, 8) == 0 {
        return None;
    }
    Some(Gated {
        base: place(base_in(z)),
        ones: !g_bit(word, 1),
    })
}

// Whether B is no source: 00, as it must be where only A is used.
fn alone(word: u64) -> bool
    ensures { result ≡ eqb (field 64 40 8 word) 0 }
{
    part(word, 16) == 0
}

// S: zeros are taken for a base of zero.
fn second_bits(d: u64) -> Option<usize>
    ensures { result ≡ second_in d }
{
    let base = base_in(d);
    if base.0 == 0 {
        return None;
    }
    Some(place(base))
}

impl Instruction {
    pub(crate) fn vector_plan(self) -> VectorPlan
        ensures { result ≡ vector_in (eqb (field 64 40 8 self.word) 0) self.word self.operands }
    {
        let o = self.operands;
        VectorPlan {
            first: source(g_bit(self.word, 3), o.a),
            second: source(alone(self.word) | g_bit(self.word, 4), o.b),
            control: control(self.word, o.z),
            result: place(base_in(o.c)),
            items: length_in(o.c),
        }
    }

    pub(crate) fn bit_plan(self, rule: Rule) -> BitPlan
        ensures { result ≡ bits_in rule self.operands }
    {
        let o = self.operands;
        BitPlan {
            rule,
            first: place(base_in(o.g)),
            second: second_bits(o.x),
            result: place(base_in(o.a)),
            runs: runs(o),
        }
    }

    pub(crate) fn move_plan(self) -> MovePlan
        ensures { result ≡ move_in self.word self.operands }
    {
        let o = self.operands;
        MovePlan {
            source: place(plus_bytes(o.a, o.x)),
            length: length_in(o.a),
            fill: part(self.word, 16),
            result: place(plus_bytes(o.c, o.z)),
            items: length_in(o.c),
        }
    }
}
