// What a name is, and whose it is.

ghost use Rattle.std.specs.Prelude.{◌≡◌, ◌≤◌, length};
ghost use Rattle.names.specs.Names.{in_name, is_letter, is_name, name_slot, run as Names·run, table_length};

use crate::slots::find;

// The most symbols that have a name, and the most bytes of one.
pub const SYMBOLS: usize = 200;

pub const WIDTH: usize = 24;

// The fewest bytes of a name: no symbol's number has more digits.
const FEWEST: usize = 3;

pub fn is_letter(byte: u8) -> bool
    ensures { result ≡ is_letter byte }
{
    if byte < b'A' {
        return false;
    }
    if byte <= b'Z' {
        return true;
    }
    if byte < b'a' {
        return false;
    }
    byte <= b'z'
}

// Whether a byte is one of a name: a letter, a digit or `_`.
fn in_name(byte: u8) -> bool
    ensures { result ≡ in_name byte }
{
    if is_letter(byte) {
        return true;
    }
    if byte == b'_' {
        return true;
    }
    if byte < b'0' {
        return false;
    }
    byte <= b'9'
}

// How many bytes of a name stand at the front.
pub fn run(text: &[u8]) -> usize
    ensures { result ≡ Names·run text.now }
{
    text.iter()
        .position(|byte| !in_name(*byte))
        .unwrap_or(text.len())
}

pub fn is_name(word: &[u8]) -> bool
    ensures { result ≡ is_name word.now }
{
    if word.len() < FEWEST {
        return false;
    }
    if WIDTH < word.len() {
        return false;
    }
    if !is_letter(word[0]) {
        return false;
    }
    run(word) == word.len()
}

// The slot of a word in the table of names, which is that of a symbol's number less one, if it is a symbol's name.
pub fn slot_of(names: &[u8], word: &[u8]) -> Option<usize>
    requires { table_length ≤ length names.now }
    ensures { result ≡ name_slot names.now word.now }
{
    if !is_name(word) {
        return None;
    }
    find(names, WIDTH, SYMBOLS, word)
}
