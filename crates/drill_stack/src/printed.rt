// Printing a record, and a board with it.

ghost use Rattle.std.specs.Prelude.{◌≤◌, length};

use crate::desks::Desk;
use board::Board;
use report::counting::how_many;
use report::printing;
use report::printing::{counted, literal, number, text};
use stack::{Stack, Stacks};
use std::io;

// More literals than these are told in short.
const MANY: usize = 12;

// How many places there are up to the last that is not 0.
fn used(places: &[i16]) -> usize
    ensures { result ≤ length places.now }
{
    match places.iter().rposition(|place| *place != 0) {
        Some(last) => last + 1,
        None => 0,
    }
}

// The places of a stack up to the last that is not 0, so that what stands beyond its literals is told too; of many how many, the first and the last.
fn places(rt: &impl Print, list: &[i16]) -> io::Result<()> {
    let n = used(list);
    if n <= MANY {
        return printing::numbers(rt, &list[..n]);
    }
    text(rt, b" [")?;
    number(rt, n)?;
    text(rt, b" from")?;
    literal(rt, list[0])?;
    text(rt, b" to")?;
    literal(rt, list[n - 1])?;
    text(rt, b" ]")
}

fn one(rt: &impl Print, s: Stack) -> io::Result<()> {
    number(rt, s.count as usize)?;
    let list = s.literals;
    places(rt, &list)
}

// The stack of furnace 1, and then that of furnace 2.
pub fn stacks(rt: &impl Print, s: Stacks) -> io::Result<()> {
    text(rt, b" stacks")?;
    one(rt, s.first)?;
    text(rt, b" and")?;
    one(rt, s.second)
}

// A board; of many premises how many.
pub fn board(rt: &impl Print, b: Board) -> io::Result<()> {
    let first = how_many(&b.first, true);
    let second = how_many(&b.second, true);
    if first <= MANY && second <= MANY {
        return printing::board(rt, b);
    }
    counted(rt, b" S", b.symbols)?;
    counted(rt, b" rows", b.rows)?;
    counted(rt, b" rules", b.rules)?;
    counted(rt, b" held", first)?;
    counted(rt, b" and", second)
}

// The front of a line: a board, how many numbers of its table are lent, and the record.
pub fn on(rt: &impl Print, d: Desk, lent: usize) -> io::Result<()> {
    text(rt, b"on")?;
    board(rt, d.board)?;
    counted(rt, b" lent", lent)?;
    stacks(rt, d.stacks)
}
