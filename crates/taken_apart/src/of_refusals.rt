// Runs that are over where they begin: 2 and 3, before any budget is looked at. A step changes nothing then.
use crate::lent::Asked;
use crate::{jobs, lent};
use runs::calls;
use runs::control::Control;
use runs::records::Record;
use std::io;

// One call, and then begin, a step and finish.
fn both_ways(
    out: &impl Print,
    asked: Asked,
    m: &mut [u8],
    registers: &mut [u64],
) -> io::Result<()> {
    let Asked { rec, budget, .. } = asked;
    asked.heading(out)?;
    lent::outcome(out, "one call", calls::run(m, registers, rec, budget))?;
    let begun = Control::begin(&m[..], &registers[..], rec, budget);
    lent::control(out, "begin", begun)?;
    let after = begun.step(m, registers);
    lent::control(out, "step", after)?;
    lent::outcome(out, "finish", after.finish(budget))
}

// 3.
pub fn records(out: &impl Print) -> io::Result<()> {
    for asked in [
        Asked::at(0x4001, "P 4001", 10),
        Asked::at(0x4001, "P 4001", 0),
        Asked {
            what: "three of three items done",
            rec: Record::half(0x4000, jobs::VECTOR_ADD, 3, 0),
            budget: 10,
        },
        Asked {
            what: "a flag that is not there",
            rec: Record::between(0x4000, 1),
            budget: 10,
        },
    ] {
        let mut job = jobs::reservoir();
        both_ways(out, asked, &mut job.m, &mut job.registers)?;
    }
    Ok(())
}

// 2.
pub fn twelve_bytes(out: &impl Print) -> io::Result<()> {
    let asked = Asked::at(0x4000, "twelve bytes", 10);
    both_ways(out, asked, &mut [0; 12], &mut [0; 256])
}

pub fn too_few_registers(out: &impl Print) -> io::Result<()> {
    let asked = Asked::at(0x4000, "255 registers", 10);
    let mut job = jobs::reservoir();
    both_ways(out, asked, &mut job.m, &mut [0; 255])
}

// A run that is begun rightly, and a step on a memory that no run can have; and a budget that is less than what is left of it.
pub fn of_other_lengths(out: &impl Print) -> io::Result<()> {
    let mut job = jobs::reservoir();
    let begun = Control::begin(&job.m, &job.registers, Record::between(0x4000, 0), 10);
    let after = begun.step(&mut [0; 12], &mut job.registers);
    lent::control(out, "begun, then a step on twelve bytes", after)?;
    lent::outcome(out, "begun with 10, finished with 9", begun.finish(9))
}
