// Reads cases from standard input until it ends, and writes the result of each to standard output, for another implementation to compare.
// A case that breaks the bounds below, or that the stream cuts off, is named on standard error, and no more is read.
//
// All numbers are words of 64 bits, the left byte first. - A case: the bytes of the memory (at most 65536), the count of the registers (at most 512), p,
// mark, held word, items, flags, the budget N, the part k (both   below 2^32); the registers; the memory, with zero bytes up to a multiple of 8. Where k is
// 0 it is one call of budget N. Else it is calls of budget k one   after another, each on the state that the one before left, the last one smaller so that
// the budgets add up to N, up to the first answer that is not 0. - Its result: the number of the last answer, the steps of all calls, p, mark, held word,
// items, flags; the registers; the memory, filled likewise.
//
// The file stdin holds 17 cases, and stdout what the first 15 come to, worked out by hand: 1 exit at P; 2 the same with budget 0, cut by 4; 3 a transmit
// and exit; 4 a vector add over its own source, 5 the same cut by 1, 6 stopped half done, 7 taken up there with zeros where its word was, cut by 3; 8 a
// branch that is taken four times, cut by 3, 9 the same with a budget of 4; 10 a memory of 12 bytes; 11 255 registers; 12 no memory and no registers; 13 a
// record that is half done with no items; 14 one of all ones; 15 a function that is not listed, with the largest budget and part; 16 a header that asks for
// 513 registers; 17 is not reached.
#![tactic(auto)]

mod cases; // a case, read, worked and answered
mod faults; // what is wrong with a case
mod headers; // what a case asks
mod parts; // the calls of a case
mod words; // the words of a case and of its result

use cases::{Replay, SPACE};
use std::io;

fn main(rt: HostRuntime) -> io::Result<()> {
    let mut replay = Replay {
        stdin: rt.stdin(),
        stdout: rt.stdout(),
        stderr: rt.stderr(),
        space: [0; SPACE],
        registers: [0; 512],
    };
    replay.all()
}
