// Comparing what a call was given with what it left.

// What stands in a lent table of bytes, and of 16-bit numbers, before a call.
pub const BYTE: u8 = 7;

pub const WORD: u16 = 7777;

// At how many places of `a` the table `b` has another number.
pub fn changed(a: &[i16], b: &[i16]) -> usize {
    a.iter().zip(b).filter(|(x, y)| **x != **y).count()
}

// How many places of a lent table were written, where this stood in each before.
pub fn written<T: PartialEq + Copy>(t: &[T], before: T) -> usize {
    t.iter().filter(|x| **x != before).count()
}
