// Each job in one call, and then by begin, step, .., finish: the two end with the same lines, and with the same registers.
use crate::lent::{Asked, Lent};
use crate::{jobs, lent};
use runs::calls;
use runs::calls::Outcome;
use runs::control::Control;
use std::io;

// What a run has left.
#[derive(Clone, Copy)]
struct End {
    lent: Lent,
    outcome: Outcome,
}

// A run under way.
#[derive(Clone, Copy)]
struct Under {
    lent: Lent,
    control: Control,
}

impl Under {
    fn begin(out: &impl Print, asked: Asked, lent: Lent) -> io::Result<Under> {
        let control = Control::begin(&lent.m, &lent.registers, asked.rec, asked.budget);
        lent::control(out, "begin", control)?;
        lent.show(out)?;
        Ok(Under { lent, control })
    }

    fn step(self, out: &impl Print) -> io::Result<Under> {
        let mut lent = self.lent;
        let control = self.control.step(&mut lent.m, &mut lent.registers);
        lent::control(out, "step", control)?;
        lent.show(out)?;
        Ok(Under { lent, control })
    }

    fn steps(self, out: &impl Print, count: u32) -> io::Result<Under> {
        let mut under = self;
        for _ in 0..count {
            under = under.step(out)?;
        }
        Ok(under)
    }

    fn finish(self, out: &impl Print, budget: u32) -> io::Result<End> {
        let lent = self.lent;
        let outcome = self.control.finish(budget);
        lent::outcome(out, "finish", outcome)?;
        lent.show(out)?;
        Ok(End { lent, outcome })
    }
}

fn one_call(out: &impl Print, asked: Asked, job: Lent) -> io::Result<Lent> {
    let mut lent = job;
    let outcome = calls::run(&mut lent.m, &mut lent.registers, asked.rec, asked.budget);
    asked.heading(out)?;
    lent::outcome(out, "one call", outcome)?;
    lent.show(out)?;
    Ok(lent)
}

// The end by so many steps, and whether all registers are as the one call left them.
fn both_ways(out: &impl Print, asked: Asked, job: Lent, count: u32) -> io::Result<End> {
    let whole = one_call(out, asked, job)?;
    let begun = Under::begin(out, asked, job)?;
    let end = begun.steps(out, count)?.finish(out, asked.budget)?;
    if end.lent.registers == whole.registers {
        println!(out; "the same registers")?;
    } else {
        println!(out; "other registers")?;
    }
    Ok(end)
}

// From the record that a run has left, two steps.
fn go_on(out: &impl Print, what: &'static str, paused: End) -> io::Result<()> {
    let asked = Asked {
        what,
        rec: paused.outcome.rec,
        budget: 9,
    };
    both_ways(out, asked, paused.lent, 2)?;
    Ok(())
}

// All of the vector, exit, and a step that finds the answer known. Then two items and a step that finds nothing left, and the rest from the record that was
// left.
pub fn reservoir(out: &impl Print) -> io::Result<()> {
    let all = Asked::at(0x4000, "reservoir", 10);
    both_ways(out, all, jobs::reservoir(), 5)?;
    let part = Asked::at(0x4000, "reservoir, a pause in the vector", 2);
    let paused = both_ways(out, part, jobs::reservoir(), 3)?;
    go_on(out, "reservoir, gone on with", paused)
}

pub fn over_its_own_word(out: &impl Print) -> io::Result<()> {
    let part = Asked::at(0x4000, "own word, a pause in the vector", 1);
    let paused = both_ways(out, part, jobs::own_word(), 1)?;
    go_on(out, "own word, gone on with", paused)
}

pub fn a_refusal(out: &impl Print) -> io::Result<()> {
    let all = Asked::at(0x4000, "a refusal after three steps", 10);
    both_ways(out, all, jobs::past_the_end(), 5)?;
    let none = Asked::at(0x4000, "no budget", 0);
    both_ways(out, none, jobs::past_the_end(), 1)?;
    Ok(())
}
