// Short jobs that reach every code, its refusals and the ends of the ranges, the scope paper's examples among them. What is written is held to the file
// stdout, which was worked out by a model of its own.
#![tactic(auto)]

mod codes; // the listed codes by name
mod one_job; // one instruction and exit: what is lent, and the line that says what came out
mod of_codes; // every listed code, and every refusal that its word can meet
mod of_fields; // memory, extents, overlaps, and what compress, merge and mask read
mod of_runs; // the reservoir job, a vector over its own word, a move, refusals
mod of_numbers; // one word or two: 2C to 2E, 63, 67, 70 to 72, 76, 77, 7A to 7C, 8A
mod words; // memory as words, and registers by their numbers

use std::io;

fn main(rt: HostRuntime) -> io::Result<()> {
    of_numbers::contract_each(&rt)?;
    of_numbers::wholes(&rt)?;
    of_numbers::shift_each(&rt)?;
    of_numbers::of_two_words(&rt)?;
    of_numbers::numbers_taken_apart(&rt)?;
    of_fields::reads_and_writes(&rt)?;
    of_fields::counts(&rt)?;
    of_fields::extents(&rt)?;
    of_fields::overlaps(&rt)?;
    of_fields::gathers(&rt)?;
    of_runs::reservoir_in_one_call(&rt)?;
    of_runs::reservoir_cut(&rt)?;
    of_runs::over_its_own_word(&rt)?;
    of_runs::move_and_refusals(&rt)?;
    of_codes::every_code(&rt)
}
