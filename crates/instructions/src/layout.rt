// The fields of an instruction, from its word and operands alone: what the checks go by.
ghost use Rattle.std.specs.Prelude.{◌≡◌};
ghost use Rattle.fields.specs.Gathers.{bit_items, bits_of_r, bits_of_s};
ghost use Rattle.fields.specs.declared.extents.Unit.TheVariants.{Byte, HalfWord, Word};
ghost use Rattle.instructions.specs.Operands.{length_in, base_in, indexed};
ghost use Rattle.instructions.specs.Layout.{no_fields, addressed_item, load_at, store_at, source_of, short_of, control_of, result_of, vector_of, runs_of, zeros_of, compress_of, woven_of, move_of, branch_fields, of_kind};

use crate::instruction::Instruction;
use crate::operands::{Operands, g_bit};
use crate::table::Kind;
use crate::words::part;
use fields::extents::Field;
use fields::gathers::{Rule, Runs};
use fields::units::{BitAddress, BitCount, ByteCount, HalfWordCount, WRAP, WordCount};

// A field of no bits is not there: a source that is broadcast or not used, the control field of Z 00, what nothing is read from, and all of an instruction that
// has no items.
#[derive(Clone, Copy)]
pub struct Fields {
    pub result: Field,
    pub first: Field,
    pub second: Field,
    pub control: Field,
    // A vector source has fewer items than the result: a fact of its own, on which no other field hangs.
    pub short: bool,
    // Where a branch goes that is taken.
    pub target: Option<BitAddress>,
}

// A descriptor's length.
pub fn length_in(d: u64) -> u16
    ensures { result ≡ length_in d }
{
    (d >> 48) as u16
}

// A descriptor's base.
pub fn base_in(d: u64) -> BitAddress
    ensures { result ≡ base_in d }
{
    BitAddress(d % WRAP)
}

pub fn plus_bytes(d: u64, index: u64) -> BitAddress
    ensures { result ≡ indexed Byte d index }
{
    BitAddress(d).plus(ByteCount(index).shifted())
}

fn no_fields() -> Fields
    ensures { result ≡ no_fields }
{
    let none = Field::absent();
    Fields {
        result: none,
        first: none,
        second: none,
        control: none,
        short: false,
        target: None,
    }
}

// The two that follow, and words and half words at C, differ in their unit alone. One over the unit is no plainer: each unit has a count and a constructor
// of a field of its own (fields/src/units.rt says why), so a trait would have an impl for each as long as the function is.
// Codes 12 and 13: the byte at R plus S bytes.
pub fn byte_at(o: Operands) -> Field
    ensures { result ≡ addressed_item Byte o }
{
    Field::of_bytes(plus_bytes(o.g, o.x), ByteCount(1))
}

// Codes 7E and 7F: the word at R plus S words.
pub fn word_at(o: Operands) -> Field
    ensures { result ≡ addressed_item Word o }
{
    let at = BitAddress(o.g).plus(WordCount(o.x).shifted());
    Field::of_words(at, WordCount(1))
}

// A load reads the field and a store writes it: two functions, for they differ in what they fill.
fn load_at(f: Field) -> Fields
    ensures { result ≡ load_at f }
{
    Fields {
        first: f,
        ..no_fields()
    }
}

fn store_at(f: Field) -> Fields
    ensures { result ≡ store_at f }
{
    Fields {
        result: f,
        ..no_fields()
    }
}

// A vector source of n words, unless it is free of a field.
#[tactic(auto, unfolding(crate::specs::Layout::source_of))]
fn source(free: bool, d: u64, n: u16) -> Field
    ensures { result ≡ source_of free d n }
{
    if free {
        return Field::absent();
    }
    Field::of_words(base_in(d), WordCount(n as u64))
}

#[tactic(auto, unfolding(crate::specs::Layout::short_of))]
fn short(free: bool, d: u64, n: u16) -> bool
    ensures { result ≡ short_of free d n }
{
    !free & (length_in(d) < n)
}

#[tactic(auto, unfolding(crate::specs::Layout::control_of))]
fn control(word: u64, z: u64, n: u16) -> Field
    ensures { result ≡ control_of word z n }
{
    if part(word, 8) == 0 {
        return Field::absent();
    }
    Field::of_bits(base_in(z), BitCount(n as u64))
}

fn words_at_c(o: Operands) -> Field
    ensures { result ≡ result_of Word o }
{
    Field::of_words(base_in(o.c), WordCount(length_in(o.c) as u64))
}

fn half_words_at_c(o: Operands) -> Field
    ensures { result ≡ result_of HalfWord o }
{
    Field::of_half_words(base_in(o.c), HalfWordCount(length_in(o.c) as u64))
}

pub fn runs(o: Operands) -> Runs
    ensures { result ≡ runs_of o }
{
    Runs {
        r: length_in(o.g),
        s: length_in(o.x),
        n: length_in(o.a),
    }
}

// n bits of S, unless zeros are taken for it.
#[tactic(auto, unfolding(crate::specs::Layout::zeros_of))]
fn unless_zeros(d: u64, n: BitCount) -> Field
    ensures { result ≡ zeros_of d n.0 }
{
    if d % WRAP == 0 {
        return Field::absent();
    }
    Field::of_bits(base_in(d), n)
}

fn compress(o: Operands) -> Fields
    ensures { result ≡ compress_of o }
{
    let lengths = runs(o);
    Fields {
        result: Field::of_bits(base_in(o.a), lengths.items(Rule::Compress)),
        first: Field::of_bits(base_in(o.g), lengths.of_r(Rule::Compress)),
        ..no_fields()
    }
}

// A merge or a mask, which reads S too.
fn woven(rule: Rule, o: Operands) -> Fields
    ensures { result ≡ woven_of o (bit_items rule (runs_of o)) (bits_of_r rule (runs_of o)) (bits_of_s rule (runs_of o)) }
{
    let lengths = runs(o);
    Fields {
        result: Field::of_bits(base_in(o.a), lengths.items(rule)),
        first: Field::of_bits(base_in(o.g), lengths.of_r(rule)),
        second: unless_zeros(o.x, lengths.of_s(rule)),
        ..no_fields()
    }
}

fn moved(o: Operands) -> Fields
    ensures { result ≡ move_of o }
{
    let n = length_in(o.c);
    let read = length_in(o.a).min(n);
    Fields {
        result: Field::of_bytes(plus_bytes(o.c, o.z), ByteCount(n as u64)),
        first: Field::of_bytes(plus_bytes(o.a, o.x), ByteCount(read as u64)),
        ..no_fields()
    }
}

impl Instruction {
    // A vector instruction of this result, with A alone as source or with A and B.
    #[tactic(auto, unfolding(crate::specs::Layout::vector_of))]
    fn vector(self, res: Field, one: bool) -> Fields
        ensures { result ≡ vector_of self.word self.operands res one }
    {
        let o = self.operands;
        let n = length_in(o.c);
        let free_a = g_bit(self.word, 3);
        let free_b = one | g_bit(self.word, 4);
        Fields {
            result: res,
            first: source(free_a, o.a, n),
            second: source(free_b, o.b, n),
            control: control(self.word, o.z, n),
            short: short(free_a, o.a, n) | short(free_b, o.b, n),
            ..no_fields()
        }
    }

    fn branch_fields(self) -> Fields
        ensures { result ≡ branch_fields self.word self.operands }
    {
        Fields {
            target: self.goes_to(),
            ..no_fields()
        }
    }

    // By what the table says that the designators mean: every kind is listed, which a list of closures would not ask for.
    #[tactic(auto, unfolding(crate::specs::Layout::of_kind))]
    pub(crate) fn fields(self, kind: Kind) -> Fields
        ensures { result ≡ of_kind kind self.word self.operands }
    {
        let o = self.operands;
        match kind {
            Kind::Exit | Kind::Register => no_fields(),
            Kind::Branch => self.branch_fields(),
            Kind::LoadByte => load_at(byte_at(o)),
            Kind::StoreByte => store_at(byte_at(o)),
            Kind::LoadWord => load_at(word_at(o)),
            Kind::StoreWord => store_at(word_at(o)),
            Kind::Compress => compress(o),
            Kind::Merge => woven(Rule::Merge, o),
            Kind::Mask => woven(Rule::Mask, o),
            Kind::TwoSources => self.vector(words_at_c(o), false),
            Kind::OneSource => self.vector(words_at_c(o), true),
            Kind::HalfResult => self.vector(half_words_at_c(o), true),
            Kind::Move => moved(o),
        }
    }
}
