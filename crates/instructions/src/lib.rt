// The listed instructions: their words, what refuses them, and what they do. What the layer above calls, in the way of a word:
#![tactic(auto)]

pub mod table; // the one constant table: a row for each function code
pub mod words; // instruction words, read into parts and put together: refusals 5, 6, 7
pub mod fetch; // the word at P: refusal 4
pub mod operands; // what the registers that a word names supply
pub mod verdict; // the first check that refuses it: 4 to 11 and 1
pub mod instruction; // an instruction whatever it is: its items, their work, the one step of any other
// What these are made of:
mod layout; // the fields of an instruction, which the checks ask
mod branches; // codes B0 to B5: compare and branch
mod scalars; // what any other instruction of one step comes to: codes 12, 13, 2C to 2E, 63, 67, 70 to 72, 76 to 78, 7A to 7C, 7E, 7F
mod effects; // what such an instruction changes, and that it is changed
mod items; // the items of a vector, bit or move instruction: their places, and what is made of one
mod plans; // where they are, from its word and operands
mod works; // their work, of an instruction that the checks let pass
mod lanes; // a vector's sources and its control, a type for each kind
mod loops; // the loop of vectors, whatever they make of an item
mod forms; // codes 83, 87, 8A, 90 to 92, 96 to 98: what each makes of an item, and its loop, with control or without, with fields or values
mod bitruns; // codes 14, 15, 16, by runs of bits
mod moves; // code F8
