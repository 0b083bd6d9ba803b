// The stored traces: words of eight bytes, the lowest first. A word past the end is 0.
//
// A session begins with the words 0, n, evaluations and finished attempts, and its area. After it stand its calls, each the
// call's number, what it brings, and what is left:
//     1 start                   family, n, time, length, state
//     2 attempt                 time, step, absolute and relative tolerance, adaptive
//     3 reply                   length, derivative
//     4 accept
//     5 accept with a callback  time, length, state
//     6 abandon
// What is left: the answer's code, number, and time or norm, 0 where it has none; evaluations and finished attempts; of a
// finished answer also s, k and the scaled radius; and the area. An area is a word with a bit for each vector that is not as it
// was before (at the beginning of a session: not zero), the lowest for vector 0, and those vectors. Where bit 16 of that word is
// set, the record's s, k and scaled radius are not as they were before the call (before the first: 0), and stand after the
// vectors. Where bit 17 is set, the record's history is not as it was before the call (before the first: absent, and its step
// 0): after all else stand 1 where there is one, else 0, and its step. The area at the beginning of a session has neither bit,
// and all twelve vectors; a call is lent those of the family that it brings (start) or that is its record's.

// The words of a trace, read one after the other.
#[derive(Clone, Copy)]
pub struct Words<'a> {
    left: &'a [[u8; 8]],
}

impl<'a> Words<'a> {
    pub fn new(bytes: &'a [u8]) -> Words<'a> {
        let (left, _) = bytes.as_chunks::<8>();
        Words { left }
    }

    // How many are left.
    pub fn count(&self) -> usize {
        self.left.len()
    }

    pub fn at_end(&self) -> bool {
        self.left.is_empty()
    }

    pub fn word(&mut self) -> u64 {
        let Some((bytes, rest)) = self.left.split_first() else {
            return 0;
        };
        self.left = rest;
        u64::from_le_bytes(*bytes)
    }

    pub fn double(&mut self) -> f64 {
        ieee::float_of(self.word())
    }

    pub fn doubles(&mut self, to: &mut [f64]) {
        for x in to.iter_mut() {
            *x = self.double();
        }
    }
}
