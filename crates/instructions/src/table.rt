// The one constant table: a row for each function code, and the row of a code in constant time.
ghost use Rattle.std.specs.Prelude.{◌≡◌};
ghost use Rattle.instructions.specs.Table.{format_of, named_of, kind_of, vector_format, long, zero_bits, found, placed, has_items};

// The designators, each the bits of its place in a word: F R S T of 32 bits, which stand in the left half, and F G X A Y B Z C of 64.
const R: u64 = 0x00FF_0000_0000_0000;

const S: u64 = 0x0000_FF00_0000_0000;

const T: u64 = 0x0000_00FF_0000_0000;

const HALF_T: u64 = 0x0000_00FE_0000_0000; // T names a half word: its last bit is one half or the other of the same register

const X: u64 = 0x0000_FF00_0000_0000;

const A: u64 = 0x0000_00FF_0000_0000;

const Y: u64 = 0x0000_0000_FF00_0000;

const B: u64 = 0x0000_0000_00FF_0000;

const C: u64 = 0x0000_0000_0000_00FF;

// Bits of G, counted from the left.
const G_1: u8 = 0x40;

const G_3: u8 = 0x10;

const G_4: u8 = 0x08;

const G_13: u8 = G_1 | G_3;

const G_134: u8 = G_1 | G_3 | G_4;

// What the designators of a code mean.
#[derive(Clone, Copy)]
pub enum Kind {
    // none
    Exit,
    // R and S are sources, T the result: registers, or for T a half word
    Register,
    // A and X are added, compared with Z, and their sum goes to C; B is the target, with Y half words. A, X, Y, Z may be 00
    Branch,
    // T from address R with S bytes
    LoadByte,
    // T to address R with S bytes
    StoreByte,
    // T from address R with S words
    LoadWord,
    // T to address R with S words
    StoreWord,
    // R and T are descriptors of bits, S the length to leave out
    Compress,
    // R, S and T are descriptors of bits
    Merge,
    // R, S and T are descriptors of bits
    Mask,
    // A, B and C are descriptors of words, Z is the control field's base or 00
    TwoSources,
    // A and C are descriptors of words, Z is the control field's base or 00
    OneSource,
    // A is a descriptor of words, C of half words, Z is the control field's base or 00
    HalfResult,
    // A and C are descriptors of bytes, with X and Z bytes or 00; B is a literal
    Move,
}

// How the parts of a word stand, by the numbers of the machine's documents. A row has the number itself, so that `find` and `row_at` say it, and so that a row
// of any other number has its answers too.
#[derive(Clone, Copy, PartialEq, Eq)]
pub enum Format {
    One = 0x1,
    Three = 0x3,
    Four = 0x4,
    Seven = 0x7,
    A = 0xA,
    C = 0xC,
}

// Code, format, allowed G bits, designators that are zero, designators where 00 has no meaning, kind.
// A designator that is in neither of the two may be 00 or anything.
#[derive(Clone, Copy)]
pub struct Row(pub u8, pub u8, pub u8, pub u64, pub u64, pub Kind);

// A row for each code, by its name.
const EXIT: Row = Row(0x09, Format::Four as u8, 0, R | S | T, 0, Kind::Exit);

const LOAD_BYTE: Row = Row(0x12, Format::Seven as u8, 0, 0, R | S | T, Kind::LoadByte);

const STORE_BYTE: Row = Row(0x13, Format::Seven as u8, 0, 0, R | S | T, Kind::StoreByte);

const BIT_COMPRESS: Row = Row(0x14, Format::Seven as u8, 0, 0, R | S | T, Kind::Compress);

const BIT_MERGE: Row = Row(0x15, Format::Seven as u8, 0, 0, R | S | T, Kind::Merge);

const BIT_MASK: Row = Row(0x16, Format::Seven as u8, 0, 0, R | S | T, Kind::Mask);

const EXCLUSIVE_OR: Row = Row(0x2C, Format::Four as u8, 0, 0, R | S | T, Kind::Register);

const AND: Row = Row(0x2D, Format::Four as u8, 0, 0, R | S | T, Kind::Register);

const INCLUSIVE_OR: Row = Row(0x2E, Format::Four as u8, 0, 0, R | S | T, Kind::Register);

const ADD_LOW_48: Row = Row(0x63, Format::Four as u8, 0, 0, R | S | T, Kind::Register);

const SUBTRACT_LOW_48: Row = Row(0x67, Format::Four as u8, 0, 0, R | S | T, Kind::Register);

const TRUNCATE: Row = Row(0x70, Format::A as u8, 0, S, R | T, Kind::Register);

const FLOOR: Row = Row(0x71, Format::A as u8, 0, S, R | T, Kind::Register);

const CEILING: Row = Row(0x72, Format::A as u8, 0, S, R | T, Kind::Register);

const CONTRACT: Row = Row(0x76, Format::A as u8, 0, S, R | HALF_T, Kind::Register);

const ROUNDED_CONTRACT: Row = Row(0x77, Format::A as u8, 0, S, R | HALF_T, Kind::Register);

const TRANSMIT: Row = Row(0x78, Format::A as u8, 0, S, R | T, Kind::Register);

const EXPONENT: Row = Row(0x7A, Format::A as u8, 0, S, R | T, Kind::Register);

const PACK: Row = Row(0x7B, Format::Four as u8, 0, 0, R | S | T, Kind::Register);

const LEFT_16: Row = Row(0x7C, Format::A as u8, 0, S, R | T, Kind::Register);

const LOAD_WORD: Row = Row(0x7E, Format::Seven as u8, 0, 0, R | S | T, Kind::LoadWord);

const STORE_WORD: Row = Row(0x7F, Format::Seven as u8, 0, 0, R | S | T, Kind::StoreWord);

const VECTOR_ADD_LOW_48: Row = Row(
    0x83,
    Format::One as u8,
    G_134,
    X | Y,
    A | B | C,
    Kind::TwoSources,
);

const VECTOR_SUBTRACT_LOW_48: Row = Row(
    0x87,
    Format::One as u8,
    G_134,
    X | Y,
    A | B | C,
    Kind::TwoSources,
);

const VECTOR_SHIFT: Row = Row(
    0x8A,
    Format::One as u8,
    G_134,
    X | Y,
    A | B | C,
    Kind::TwoSources,
);

const VECTOR_TRUNCATE: Row = Row(
    0x90,
    Format::One as u8,
    G_13,
    X | Y | B,
    A | C,
    Kind::OneSource,
);

const VECTOR_FLOOR: Row = Row(
    0x91,
    Format::One as u8,
    G_13,
    X | Y | B,
    A | C,
    Kind::OneSource,
);

const VECTOR_CEILING: Row = Row(
    0x92,
    Format::One as u8,
    G_13,
    X | Y | B,
    A | C,
    Kind::OneSource,
);

const VECTOR_CONTRACT: Row = Row(
    0x96,
    Format::One as u8,
    G_1,
    X | Y | B,
    A | C,
    Kind::HalfResult,
);

const VECTOR_ROUNDED_CONTRACT: Row = Row(
    0x97,
    Format::One as u8,
    G_1,
    X | Y | B,
    A | C,
    Kind::HalfResult,
);

const VECTOR_TRANSMIT: Row = Row(
    0x98,
    Format::One as u8,
    G_13,
    X | Y | B,
    A | C,
    Kind::OneSource,
);

const ADD_BRANCH_IF_EQUAL: Row = Row(0xB0, Format::C as u8, G_4, 0, B | C, Kind::Branch);

const ADD_BRANCH_IF_NOT_EQUAL: Row = Row(0xB1, Format::C as u8, G_4, 0, B | C, Kind::Branch);

const ADD_BRANCH_IF_GREATER_OR_EQUAL: Row = Row(0xB2, Format::C as u8, G_4, 0, B | C, Kind::Branch);

const ADD_BRANCH_IF_LESS: Row = Row(0xB3, Format::C as u8, G_4, 0, B | C, Kind::Branch);

const ADD_BRANCH_IF_LESS_OR_EQUAL: Row = Row(0xB4, Format::C as u8, G_4, 0, B | C, Kind::Branch);

const ADD_BRANCH_IF_GREATER: Row = Row(0xB5, Format::C as u8, G_4, 0, B | C, Kind::Branch);

const MOVE_BYTES_LEFT: Row = Row(0xF8, Format::Three as u8, 0, Y, A | C, Kind::Move);

// The table.
const ROWS: [Row; 38] = [
    EXIT,
    LOAD_BYTE,
    STORE_BYTE,
    BIT_COMPRESS,
    BIT_MERGE,
    BIT_MASK,
    EXCLUSIVE_OR,
    AND,
    INCLUSIVE_OR,
    ADD_LOW_48,
    SUBTRACT_LOW_48,
    TRUNCATE,
    FLOOR,
    CEILING,
    CONTRACT,
    ROUNDED_CONTRACT,
    TRANSMIT,
    EXPONENT,
    PACK,
    LEFT_16,
    LOAD_WORD,
    STORE_WORD,
    VECTOR_ADD_LOW_48,
    VECTOR_SUBTRACT_LOW_48,
    VECTOR_SHIFT,
    VECTOR_TRUNCATE,
    VECTOR_FLOOR,
    VECTOR_CEILING,
    VECTOR_CONTRACT,
    VECTOR_ROUNDED_CONTRACT,
    VECTOR_TRANSMIT,
    ADD_BRANCH_IF_EQUAL,
    ADD_BRANCH_IF_NOT_EQUAL,
    ADD_BRANCH_IF_GREATER_OR_EQUAL,
    ADD_BRANCH_IF_LESS,
    ADD_BRANCH_IF_LESS_OR_EQUAL,
    ADD_BRANCH_IF_GREATER,
    MOVE_BYTES_LEFT,
];

impl Row {
    // What its designators mean.
    pub fn kind(self) -> Kind
        ensures { result ≡ kind_of self }
    {
        self.5
    }

    // Whether it is a vector, bit or move instruction, which goes by items.
    pub fn has_items(self) -> bool
        ensures { result ≡ has_items (kind_of self) }
    {
        match self.5 {
            Kind::Exit
            | Kind::Register
            | Kind::Branch
            | Kind::LoadByte
            | Kind::StoreByte
            | Kind::LoadWord
            | Kind::StoreWord => false,
            Kind::Compress
            | Kind::Merge
            | Kind::Mask
            | Kind::TwoSources
            | Kind::OneSource
            | Kind::HalfResult
            | Kind::Move => true,
        }
    }

    // The designators where 00 has no meaning: FF for a register, FE for a half-word register.
    pub fn named(self) -> u64
        ensures { result ≡ named_of self }
    {
        self.4
    }

    // Whether it is a vector instruction: G bit 1 and Z say what is stored.
    pub fn vector(self) -> bool
        ensures { result ≡ vector_format (format_of self) }
    {
        self.1 == Format::One as u8
    }

    // Whether the words have 64 bits, and a G.
    pub fn long(self) -> bool
        ensures { result ≡ long (format_of self) }
    {
        let format = self.1;
        format == Format::One as u8 || format == Format::Three as u8 || format == Format::C as u8
    }

    // The bits of a word that are to be zero.
    pub fn zero_bits(self) -> u64
        ensures { result ≡ zero_bits self }
    {
        if self.long() {
            self.3 | ((0xFF - self.2) as u64 * 0x1_0000_0000_0000)
        } else {
            self.3 | 0xFFFF_FFFF
        }
    }
}

// The row of a code, or none where it is not in the table. By cases: a jump, and no copy of a table.
#[tactic(auto, unfolding(crate::specs::Table::found))]
pub fn find(code: u8) -> Option<Row>
    ensures { result ≡ found code }
{
    match code {
        0x09 => Some(EXIT),
        0x12 => Some(LOAD_BYTE),
        0x13 => Some(STORE_BYTE),
        0x14 => Some(BIT_COMPRESS),
        0x15 => Some(BIT_MERGE),
        0x16 => Some(BIT_MASK),
        0x2C => Some(EXCLUSIVE_OR),
        0x2D => Some(AND),
        0x2E => Some(INCLUSIVE_OR),
        0x63 => Some(ADD_LOW_48),
        0x67 => Some(SUBTRACT_LOW_48),
        0x70 => Some(TRUNCATE),
        0x71 => Some(FLOOR),
        0x72 => Some(CEILING),
        0x76 => Some(CONTRACT),
        0x77 => Some(ROUNDED_CONTRACT),
        0x78 => Some(TRANSMIT),
        0x7A => Some(EXPONENT),
        0x7B => Some(PACK),
        0x7C => Some(LEFT_16),
        0x7E => Some(LOAD_WORD),
        0x7F => Some(STORE_WORD),
        0x83 => Some(VECTOR_ADD_LOW_48),
        0x87 => Some(VECTOR_SUBTRACT_LOW_48),
        0x8A => Some(VECTOR_SHIFT),
        0x90 => Some(VECTOR_TRUNCATE),
        0x91 => Some(VECTOR_FLOOR),
        0x92 => Some(VECTOR_CEILING),
        0x96 => Some(VECTOR_CONTRACT),
        0x97 => Some(VECTOR_ROUNDED_CONTRACT),
        0x98 => Some(VECTOR_TRANSMIT),
        0xB0 => Some(ADD_BRANCH_IF_EQUAL),
        0xB1 => Some(ADD_BRANCH_IF_NOT_EQUAL),
        0xB2 => Some(ADD_BRANCH_IF_GREATER_OR_EQUAL),
        0xB3 => Some(ADD_BRANCH_IF_LESS),
        0xB4 => Some(ADD_BRANCH_IF_LESS_OR_EQUAL),
        0xB5 => Some(ADD_BRANCH_IF_GREATER),
        0xF8 => Some(MOVE_BYTES_LEFT),
        _ => None,
    }
}

// The row at a place of the table, from 0, for who goes through all of it.
pub fn row_at(place: usize) -> Option<Row>
    ensures { result ≡ placed place }
{
    ROWS.get(place).copied()
}
