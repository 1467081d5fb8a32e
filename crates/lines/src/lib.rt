// What the programs read: a buffer that is filled.
#![tactic(auto)]

ghost use Rattle.std.specs.Prelude.{◌≡◌, ◌≤◌, length, IfOk, OnErr};

use std::io;
use std::io::Read;

// Reads until the place is full or the input ends, and returns how many bytes stand at its start. std has no such call: `read_exact` tells no count where the
// input ends, and `read_to_end` takes the heap.
pub fn read_full(input: &mut impl Read, place: &mut [u8]) -> io::Result<usize>
    ensures ok { IfOk result (λ n. n ≤ length place.new) }
    ensures err { OnErr result (length place.new ≡ length place.old) }
{
    let mut done = 0;
    while done < place.len() {
        let n = input.read(&mut place[done..])?;
        if n == 0 {
            break;
        }
        done += n;
    }
    Ok(done)
}
