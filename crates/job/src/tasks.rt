// Run, step and list: what becomes of a job.
use crate::answers::InWords;
use crate::command::Command;
use crate::jobs::Job;
use crate::listing::Spelled;
use crate::{changes, listing};
use fields::units::BitAddress;
use instructions::fetch::fetch;
use runs::answers::is_paused;
use runs::calls::Outcome;
use std::io;

// Where an instruction is half done: its name, and how many of its items are done.
fn progress(out: &impl Print, job: &Job) -> io::Result<()> {
    let rec = job.rec;
    if rec.mark == 0 {
        return Ok(());
    }
    let count = job.instruction(BitAddress(rec.p), rec.word).count();
    println!(out;
        "# half done: {}: items done {} of {count}",
        Spelled(rec.word),
        rec.items
    )
}

// The answer and the steps, as comment lines.
fn tell(out: &impl Print, job: &Job, outcome: Outcome) -> io::Result<()> {
    let answer = outcome.answer;
    println!(out; "# answer {}", InWords(answer))?;
    println!(out; "# steps {}", outcome.steps)?;
    if is_paused(answer) {
        progress(out, job)?;
    }
    Ok(())
}

// At most so many steps, and the deck of the state afterwards.
fn run(out: &impl Print, job: &mut Job, budget: u32) -> io::Result<()> {
    let outcome = job.run(budget);
    tell(out, job, outcome)?;
    print!(out; "{job}")
}

// The word that a step works on: the held one, or the one at P.
fn at_work(job: &Job) -> u64 {
    if job.rec.mark == 0 {
        return fetch(job.memory(), BitAddress(job.rec.p));
    }
    job.rec.word
}

// One step, what it changed, and the deck of the state afterwards. Not copied into its caller: no other command has the room of a second job.
#[inline(never)]
fn step(out: &impl Print, job: &mut Job) -> io::Result<()> {
    println!(out; "# at {:04x}: {}", job.rec.p, Spelled(at_work(job)))?;
    let before = *job;
    let outcome = job.run(1);
    changes::tell(out, &before, job)?;
    tell(out, job, outcome)?;
    print!(out; "{job}")
}

// What is half done, and the instructions from P on.
fn list(out: &impl Print, job: &mut Job, most: u32) -> io::Result<()> {
    let outcome = job.run(0);
    if is_paused(outcome.answer) {
        progress(out, job)?;
    } else {
        println!(out; "# answer {}", InWords(outcome.answer))?;
    }
    listing::from_p(out, job, most)
}

pub fn follow(out: &impl Print, command: Command, job: &mut Job) -> io::Result<()> {
    match command {
        Command::Run(budget) => run(out, job, budget),
        Command::Step => step(out, job),
        Command::List(most) => list(out, job, most),
    }
}
