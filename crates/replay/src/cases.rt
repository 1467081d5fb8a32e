// Cases, one after another.
use crate::faults::{Fault, Stop};
use crate::headers::Header;
use crate::{parts, words};
use lines::read_full;
use runs::answers;
use std::io;
use std::io::{Stderr, Stdin, Stdout};

// 7 words, up to 512 registers, up to 65536 bytes of memory.
pub const SPACE: usize = 69688;

// The streams, and the one space for a case and then its result: fixed memory and no heap, so what stands in it is cut out by the header's lengths.
#[derive(Drop)]
pub struct Replay {
    pub stdin: Stdin,
    pub stdout: Stdout,
    pub stderr: Stderr,
    pub space: [u8; SPACE],
    pub registers: [u64; 512],
}

// The case whose header was read, where the space holds its registers and then its memory, to its result in their place.
fn answer(header: Header, space: &mut [u8; SPACE], registers: &mut [u64; 512]) {
    let start = header.start();
    let last = start + header.size;
    let named = &mut registers[..header.count];
    words::take(&space[56..start], named);
    let r = parts::work(
        &mut space[start..last],
        named,
        header.rec,
        header.budget,
        header.part,
    );
    let head = [
        answers::number(r.answer),
        r.steps as u64,
        r.rec.p,
        r.rec.mark,
        r.rec.word,
        r.rec.items,
        r.rec.flags,
    ];
    words::put(&mut space[..56], &head);
    words::put(&mut space[56..start], named);
}

impl Replay {
    // The next case, to its result, which is written.
    fn next(&mut self) -> Result<(), Stop> {
        let space = &mut self.space[..];
        let got = read_full(&mut self.stdin, &mut space[..72])?;
        if got == 0 {
            return Err(Stop::End);
        }
        if got < 72 {
            return Err(Stop::Refused(Fault::Header));
        }
        let header = Header::read(space)?;
        let last = header.start() + header.size;
        let end = header.start() + header.padded();
        if read_full(&mut self.stdin, &mut space[56..end])? < end - 56 {
            return Err(Stop::Refused(Fault::Contents));
        }
        space[last..end].fill(0);
        answer(header, &mut self.space, &mut self.registers);
        self.stdout
            .write_all(&self.space[..end])
            .map_err(|_| Fault::Result)?;
        Ok(())
    }

    // Every case of the stream. A proved loop has to end, and nothing says that a stream does: it counts up to a number that no run reaches.
    pub fn all(&mut self) -> io::Result<()> {
        for case in 1..u64::MAX {
            match self.next() {
                Ok(()) => {}
                Err(Stop::End) => return Ok(()),
                Err(Stop::Refused(fault)) => return println!(self.stderr; "case {case}: {fault}"),
                Err(Stop::Failed(error)) => return Err(error),
            }
        }
        Ok(())
    }
}
