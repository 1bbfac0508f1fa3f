// Pieces of an answer, on standard output: words, numbers, symbols by their names, and a line again.

ghost use Rattle.std.specs.Prelude.{◌≡◌, ◌≤◌, length};
ghost use Rattle.names.specs.Names.{table_length};

use names::naming::{SYMBOLS, WIDTH};
use spelling::put_shown;
use std::io;

pub fn say(rt: &impl Print, words: &[u8]) -> io::Result<()> {
    rt.write_all(words)
}

pub fn say_number(rt: &impl Print, n: usize) -> io::Result<()> {
    rt.print(n)
}

// How many bytes stand before the first zero.
pub fn word_length(slot: &[u8]) -> usize
    ensures { result ≤ length slot.now }
{
    slot.iter()
        .position(|byte| *byte == 0)
        .unwrap_or(slot.len())
}

// The name of a slot, or the symbol's number where it has none.
fn say_slot(rt: &impl Print, slot: &[u8], symbol: usize) -> io::Result<()> {
    let n = word_length(slot);
    if n == 0 {
        return say_number(rt, symbol);
    }
    say(rt, &slot[..n])
}

// A symbol by its name, or by its number.
pub fn say_symbol(rt: &impl Print, names: &[u8], symbol: usize) -> io::Result<()>
    requires { length names.now ≡ table_length }
{
    if symbol < 1 {
        return say_number(rt, symbol);
    }
    if SYMBOLS < symbol {
        return say_number(rt, symbol);
    }
    let at = WIDTH * (symbol - 1);
    say_slot(rt, &names[at..at + WIDTH], symbol)
}

pub fn say_literal(rt: &impl Print, names: &[u8], l: i16) -> io::Result<()>
    requires { length names.now ≡ table_length }
{
    if l < 0 {
        say(rt, b"-")?;
    }
    say_symbol(rt, names, literals::symbol(l))
}

// The literal of a place: +s at 2(s - 1), -s next.
pub fn say_place(rt: &impl Print, names: &[u8], p: usize) -> io::Result<()>
    requires { length names.now ≡ table_length }
{
    if p % 2 == 1 {
        say(rt, b"-")?;
    }
    say_symbol(rt, names, p / 2 + 1)
}

// A blank and a comma before all but the first of a list.
pub fn say_comma(rt: &impl Print, count: usize) -> io::Result<()> {
    if 0 < count {
        say(rt, b", ")?;
    }
    Ok(())
}

// A line again, as much of it as a line may have.
pub fn say_line(rt: &impl Print, line: &[u8]) -> io::Result<()> {
    let mut room = [0u8; 500];
    let n = line.len().min(500);
    put_shown(&mut room, 0, &line[..n]);
    say(rt, &room[..n])?;
    say(rt, b"\n")
}

// So many blanks, as many as a line may have bytes.
pub fn say_blanks(rt: &impl Print, n: usize) -> io::Result<()> {
    let room = [b' '; 500];
    say(rt, &room[..n.min(500)])
}
