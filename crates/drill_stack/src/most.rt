// The fullest stack that there can be: all 400 literals of 200 symbols, in the order of their places.

ghost use Rattle.std.specs.Prelude.{◌<◌};

use crate::desks::{Desk, bare, empty, stacked, with_count, with_last};
use crate::telling::{by_both, every, open};
use report::boards;
use report::boards::blank;
use std::io;

// The literal at a place: +s at 2(s - 1), -s at the next.
fn literal_at(p: u16) -> i16
    requires { p < 400 }
{
    let s = (p / 2 + 1) as i16;
    if p % 2 == 0 { s } else { -s }
}

// All of them pushed by a furnace.
fn filled(furnace: u8) -> Desk {
    let table = boards::rows();
    let mut board = blank(200, 0, 0);
    let start = bare(board);
    let mut stacks = start.stacks;
    for p in 0..400 {
        let told = stack::steps::push(board, &table, stacks, furnace, literal_at(p));
        let change = told.change;
        board = change.board;
        stacks = told.stacks;
    }
    Desk { board, stacks }
}

// As many pops.
fn emptied(d: Desk, furnace: u8) -> Desk {
    let table = boards::rows();
    let mut board = d.board;
    let mut stacks = d.stacks;
    for _ in 0..400 {
        let told = stack::steps::pop(board, &table, stacks, furnace);
        let change = told.change;
        board = change.board;
        stacks = told.stacks;
    }
    Desk { board, stacks }
}

// Each literal is good, so that the count alone is at fault: "more than 2S literals", a place more than there are, and the most that can be said.
fn miscounted(rt: &impl Print, first: Desk, second: Desk, count: u16) -> io::Result<()> {
    let one = first.stacks;
    let two = second.stacks;
    by_both(
        rt,
        stacked(first.board, with_count(one.first, count), empty()),
        1,
    )?;
    by_both(
        rt,
        stacked(second.board, empty(), with_count(two.second, count)),
        1,
    )
}

// 1 stands in the last place too, where -200 was.
fn repeated(rt: &impl Print, d: Desk) -> io::Result<()> {
    let stacks = d.stacks;
    by_both(
        rt,
        stacked(d.board, empty(), with_last(stacks.second, 1)),
        1,
    )
}

pub fn run(rt: &impl Print) -> io::Result<()> {
    let first = filled(1);
    let second = filled(2);
    by_both(rt, second, 1)?;
    by_both(rt, first, -200)?;
    miscounted(rt, first, second, 401)?;
    miscounted(rt, first, second, 65535)?;
    repeated(rt, second)?;
    every(rt, emptied(second, 2), 2, 1)?;
    open(rt, 3, second.stacks)
}
