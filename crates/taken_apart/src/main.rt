// Runs taken apart into begin, step, .., finish beside the one call, and words taken apart into parts and put together again. What is written is held to the
// file stdout, which was worked out by a model of its own.
#![tactic(auto)]

mod jobs; // memory and registers by value: the jobs that are run
mod lent; // what a run is lent and what it leaves, in lines
mod of_refusals; // runs that begin refuses
mod of_steps; // runs of real steps
mod of_table; // the table, row by row
mod of_words; // words, their parts, and 5, 6 and 7 both ways

use std::io;

fn main(rt: HostRuntime) -> io::Result<()> {
    of_steps::reservoir(&rt)?;
    of_steps::over_its_own_word(&rt)?;
    of_steps::a_refusal(&rt)?;
    of_refusals::records(&rt)?;
    of_refusals::twelve_bytes(&rt)?;
    of_refusals::too_few_registers(&rt)?;
    of_refusals::of_other_lengths(&rt)?;
    of_table::rows(&rt)?;
    of_table::formats(&rt)?;
    of_words::each_code(&rt)?;
    of_words::listed(&rt)?;
    of_words::refused(&rt)?;
    of_words::of_parts(&rt)
}
