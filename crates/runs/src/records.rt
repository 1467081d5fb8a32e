// The record: where a job stands between two calls.
ghost use Rattle.std.specs.Prelude.{◌≡◌};
ghost use Rattle.runs.specs.Records.{half, between};

// Every bit pattern is a record; 3 refuses those that no run can make. A host in C lends these five numbers in this order, so that the mark stays a number
// beside what it marks.
#[repr(C)]
#[derive(Clone, Copy)]
pub struct Record {
    pub p: u64,
    pub mark: u64,
    pub word: u64,
    pub items: u64,
    pub flags: u64,
}

impl Record {
    // The record where k items of the word at p are done, and not all.
    pub fn half(p: u64, word: u64, k: u64, flags: u64) -> Record
        ensures { result ≡ half p word k flags }
    {
        Record {
            p,
            mark: 1,
            word,
            items: k,
            flags,
        }
    }

    // The record between two instructions, at p.
    pub fn between(p: u64, flags: u64) -> Record
        ensures { result ≡ between p flags }
    {
        Record {
            p,
            mark: 0,
            word: 0,
            items: 0,
            flags,
        }
    }
}
