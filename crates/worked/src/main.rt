// The cases that documents 000 and 003 work out themselves, run as jobs. What is written is held to the file stdout, whose lines were worked out from the
// documents: a line names the code, the document and its place. docs/DOCUMENTS.md, section 10, lists them by code.
#![tactic(auto)]

mod jobs; // one instruction and exit: what is lent, and the line that says what came out
mod of_branches; // 09, B0 to B5: how instructions are packed, the sums that C receives, and the order of numbers
mod of_fields; // 14 to 16, 7E, 7F, F8, and the lengths at which vectors end
mod of_numbers; // 70 to 72, 76, 77, 7A to 7C and their vectors: the numbers that 000 prints
mod of_words; // 2C to 2E, 63, 67, 83, 87, 8A: sums, differences and shifts that 000 and 003 work out
mod printed; // the numbers that stand in several cases

use std::io;

fn main(rt: HostRuntime) -> io::Result<()> {
    of_numbers::wholes(&rt)?;
    of_numbers::shifted_wholes(&rt)?;
    of_numbers::contracts(&rt)?;
    of_numbers::contract_table(&rt)?;
    of_numbers::parts(&rt)?;
    of_numbers::vectors(&rt)?;
    of_words::logic(&rt)?;
    of_words::sums(&rt)?;
    of_words::differences(&rt)?;
    of_words::vectors(&rt)?;
    of_fields::bits(&rt)?;
    of_fields::moves(&rt)?;
    of_fields::vectors_end(&rt)?;
    of_fields::loads(&rt)?;
    of_fields::stores(&rt)?;
    of_branches::packed(&rt)?;
    of_branches::targets(&rt)?;
    of_branches::sums(&rt)?;
    of_branches::order(&rt)
}
