// Memory as words, and registers by their numbers.
use std::io;

// Words to the place, as many as there are and as it has room for: the library's methods, for which a crate that programs share would be no plainer.
pub fn put(place: &mut [u8], words: &[u64]) {
    for (bytes, word) in place.as_chunks_mut::<8>().0.iter_mut().zip(words) {
        *bytes = word.to_be_bytes();
    }
}

// To each of the registers what it is to hold.
pub fn hold(registers: &mut [u64; 256], values: &[(u8, u64)]) {
    for (register, value) in values {
        registers[*register as usize] = *value;
    }
}

// A line's end: the words.
pub fn show(out: &impl Print, place: &[u8]) -> io::Result<()> {
    for bytes in place.as_chunks::<8>().0 {
        print!(out; " {:016x}", u64::from_be_bytes(*bytes))?;
    }
    println!(out)
}
