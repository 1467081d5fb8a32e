// The header of a case, and where what follows it stands in the space.
ghost use Rattle.std.specs.Prelude.{◌≡◌, ◌+◌, ◌*◌, ◌≤◌};

use crate::faults::Fault;
use crate::words;
use runs::records::Record;

// The counts of bytes of memory and of registers, and what is asked.
#[derive(Clone, Copy)]
pub struct Header {
    pub size: usize,
    pub count: usize,
    pub rec: Record,
    pub budget: u32,
    pub part: u32,
    ghost memory_fits: { size ≤ 65536 },
    ghost registers_fit: { count ≤ 512 },
}

impl Header {
    // The header at the start of the space, or the first thing that is wrong with it.
    pub fn read(space: &[u8]) -> Result<Header, Fault> {
        let mut head = [0; 9];
        words::take(space, &mut head);
        let [size, count, p, mark, word, items, flags, budget, part] = head;
        if size > 65536 {
            return Err(Fault::Size);
        }
        if count > 512 {
            return Err(Fault::Count);
        }
        let budget = u32::try_from(budget).map_err(|_| Fault::Budget)?;
        let part = u32::try_from(part).map_err(|_| Fault::Part)?;
        let rec = Record {
            p,
            mark,
            word,
            items,
            flags,
        };
        Ok(Header {
            size: size as usize,
            count: count as usize,
            rec,
            budget,
            part,
        })
    }

    // Where the memory begins: behind seven words and the registers.
    pub fn start(self) -> usize
        ensures { result ≡ 56 + 8 * self.count }
    {
        56 + 8 * self.count
    }

    // The bytes of the memory with those that fill them up to a multiple of 8.
    pub fn padded(self) -> usize
        ensures { (self.size ≤ result) × (result ≤ 65536) }
    {
        (self.size + 7) / 8 * 8
    }
}
