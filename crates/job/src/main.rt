// Runs job decks: the first argument says what to do, and the deck is read from standard input. A rule of the machine stands nowhere here.
#![tactic(auto)]

mod command; // the words of the command line
mod scan; // the words of a line, and the numbers that they are
mod faults; // what can be wrong with a deck or a command, in words
mod decks; // a deck, read
mod jobs; // a job: its memory, registers and record
mod writing; // a job's deck, written
mod answers; // each answer of a call, in words
mod names; // each function code, in words
mod listing; // the instructions from P on
mod changes; // what one step changed, in words
mod tasks; // run, step and list

use command::Command;
use decks::{Deck, ROOM};
use jobs::{Job, Start};
use lines::read_full;
use std::io;

// What the command asks of a deck's job, which is made where it stays.
fn with_job(rt: &HostRuntime, command: Command, deck: &Deck) -> io::Result<()> {
    match Start::try_from(deck) {
        Ok(start) => {
            let mut job = Job::of(start, deck);
            job.fill(deck);
            tasks::follow(rt, command, &mut job)
        }
        Err(fault) => fault.tell(&rt.stderr()),
    }
}

// The deck of standard input, and what the command asks of its job; or what is wrong with the deck.
// The text has a fixed place, since there is no heap. Not copied into main: a bad command line is told without all that room.
#[inline(never)]
fn with_deck(rt: &HostRuntime, command: Command) -> io::Result<()> {
    let mut place = [0; ROOM];
    let count = read_full(&mut rt.stdin(), &mut place)?;
    let mut deck = Deck::empty();
    match deck.read(&place[..count]) {
        Ok(()) => with_job(rt, command, &deck),
        Err(fault) => fault.tell(&rt.stderr()),
    }
}

fn main(rt: HostRuntime) -> io::Result<()> {
    match command::given(&rt) {
        Ok(command) => with_deck(&rt, command),
        Err(fault) => rt.stderr().println(fault),
    }
}
