// What one step changed, in words: comment lines of the deck that is written afterwards.
ghost use Rattle.std.specs.Prelude.{◌≤◌, length};

use crate::jobs::Job;
use fields::bytes::{self, WORD};
use runs::records::Record;
use std::{fmt, io};

// A line of what is other than before.
fn change(
    out: &impl Print,
    what: impl fmt::Display + Drop,
    old: u64,
    new: u64,
    digits: usize,
) -> io::Result<()> {
    println!(out; "# {what}: {old:0digits$x} -> {new:0digits$x}")
}

// Registers and words are a loop each: one iterator over both would be a type of its own, longer than the two. What is the same is passed over before it
// is named.
fn of_registers(out: &impl Print, before: &[u64; 256], after: &[u64; 256]) -> io::Result<()> {
    for (k, (old, new)) in before.iter().zip(after).enumerate() {
        if *old != *new {
            change(out, format_args!("register {k:02x}"), *old, *new, 16)?;
        }
    }
    Ok(())
}

fn of_memory(out: &impl Print, before: &[u8], after: &[u8]) -> io::Result<()>
    requires { length after.now ≤ 65536 }
{
    for (k, (old, new)) in before
        .chunks_exact(8)
        .zip(after.chunks_exact(8))
        .enumerate()
    {
        let old = bytes::read::<WORD>(old, 0);
        let new = bytes::read::<WORD>(new, 0);
        if old != new {
            let address = 0x4000 + 0x40 * k;
            change(out, format_args!("word {address:04x}"), old, new, 16)?;
        }
    }
    Ok(())
}

// P and the flags.
fn of_record(out: &impl Print, before: Record, after: Record) -> io::Result<()> {
    if before.p != after.p {
        change(out, "p", before.p, after.p, 4)?;
    }
    if before.flags != after.flags {
        change(out, "flags", before.flags, after.flags, 6)?;
    }
    Ok(())
}

// What a step changed: registers, words of memory, P and the flags.
pub fn tell(out: &impl Print, before: &Job, after: &Job) -> io::Result<()> {
    of_registers(out, &before.registers, &after.registers)?;
    of_memory(out, before.memory(), after.memory())?;
    of_record(out, before.rec, after.rec)
}
