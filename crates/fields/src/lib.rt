// Bits, bytes, half words and words of the lent memory: addresses and counts, where a field lies, what is read and stored there.
// Nothing here knows of registers or instruction words.
#![tactic(auto)]

pub mod bytes; // items by index, for the loops above: reads and writes that ask for bounds
pub mod extents; // a field: empty, aligned, inside memory, sharing a bit with another
pub mod gathers; // how far compress, merge and mask read
pub mod memory; // items at bit addresses
pub mod units; // bit addresses, and counts in four units
