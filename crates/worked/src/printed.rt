// Numbers as 000 prints them.

// 3.1.4.3.2, plus and minus one, normalized.
pub const PLUS_ONE: u64 = 0xFFD2_4000_0000_0000;

pub const MINUS_ONE: u64 = 0xFFD1_8000_0000_0000;

// 3.1.4.6.3, a subtraction both ways round: A, and B aligned to its exponent by four places, with their complements.
pub const A: u64 = 0x0104_6FCB_807E_89F2;

pub const MINUS_A: u64 = 0x0104_9034_7F81_760E;

pub const B_ALIGNED: u64 = 0x0104_06FA_C3F5_DA5F;

pub const MINUS_B_ALIGNED: u64 = 0x0104_F905_3C0A_25A0;

// 3.1.4.5.3, a comparison both ways round: r aligned and s complemented; then s, which was r, complemented and aligned.
pub const R_ALIGNED: u64 = 0x0104_0000_0000_0100;

pub const MINUS_S: u64 = 0x0104_FFFF_FFFF_FF00;

pub const MINUS_S_ALIGNED: u64 = 0x0104_FFFF_FFFF_FEFF;
