// What a word says: a number, a symbol by its number or its name, a literal.

ghost use Rattle.std.specs.Prelude.{◌≡◌, true, ◌≤◌, length};
ghost use Rattle.names.specs.Names.{table_length};
ghost use Rattle.orders.specs.Reading.{is_number, value_of, number_in, symbol_in, literal_in};

use crate::Slip;
use crate::words::is_between;
use names::naming::{is_name, slot_of};

// Whatever is above this counts as this, which is no symbol of any board.
const MOST: usize = 32767;

fn is_number(word: &[u8]) -> bool
    ensures { result ≡ is_number word.now }
{
    is_between(word, b'0', b'9') && 0 < word.len()
}

// The value of digits.
fn value_of(word: &[u8]) -> usize
    requires { is_number word.now ≡ true }
    ensures { result ≡ value_of word.now }
{
    let mut value = 0;
    for byte in word {
        value = value * 10 + (*byte - b'0') as usize;
        if MOST < value {
            value = MOST;
        }
    }
    value
}

pub fn number_in(word: &[u8]) -> Result<usize, Slip>
    ensures { result ≡ number_in word.now }
{
    if is_number(word) {
        return Ok(value_of(word));
    }
    Err(Slip::NumberDue)
}

pub fn symbol_in(names: &[u8], word: &[u8]) -> Result<usize, Slip>
    requires { table_length ≤ length names.now }
    ensures { result ≡ symbol_in names.now word.now }
{
    if is_number(word) {
        return Ok(value_of(word));
    }
    if !is_name(word) {
        return Err(Slip::SymbolDue);
    }
    match slot_of(names, word) {
        Some(slot) => Ok(slot + 1),
        None => Err(Slip::UnknownName),
    }
}

pub fn literal_in(names: &[u8], word: &[u8]) -> Result<i16, Slip>
    requires { table_length ≤ length names.now }
    ensures { result ≡ literal_in names.now word.now }
{
    if word.len() == 0 {
        return Err(Slip::SymbolDue);
    }
    if word[0] == b'-' {
        let opposite = symbol_in(names, &word[1..])?;
        return Ok(-(opposite as i16));
    }
    let symbol = symbol_in(names, word)?;
    Ok(symbol as i16)
}
