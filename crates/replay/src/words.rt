// Words in bytes, one after another, the left byte first.

// The words of the place, as many as are asked for and as it has.
pub fn take(place: &[u8], words: &mut [u64]) {
    for (bytes, word) in place.as_chunks::<8>().0.iter().zip(words.iter_mut()) {
        *word = u64::from_be_bytes(*bytes);
    }
}

// Words to the place, as many as there are and as it has room for: the library's methods, for which a crate that programs share would be no plainer.
pub fn put(place: &mut [u8], words: &[u64]) {
    for (bytes, word) in place.as_chunks_mut::<8>().0.iter_mut().zip(words) {
        *bytes = word.to_be_bytes();
    }
}
