// Numbers of the CYBER 200: two's complement exponents and coefficients, and what the listed instructions make of one or two words.
// Nothing here knows of memory, registers or instruction words.
#![tactic(auto)]

pub mod contracts; // contract and rounded contract: 76, 77
pub mod flags; // data flags, and an item that sets them
pub mod number; // a number taken into exponent and coefficient, and put together
pub mod shifts; // rotation and right shift with sign: 8A
pub mod whole; // truncate, floor, ceiling: 70, 71, 72
pub mod words; // sums, differences, parts and logic of words: 2C to 2E, 63, 67, 7A, 7B, 7C
mod division; // quotients by a power of two, rounded toward zero, down and up
mod signs; // one small function for each signed machine operation
mod widths; // exponent and coefficient over their widths

pub use crate::division::Rounding;
