// Refusal 1: a spoilt board, and "when either stack has more than 2S literals, a repeated one or one its furnace doesn't hold".

use crate::desks::{alike, bare, counting, empty, single, stacked};
use crate::telling::{by_both, every};
use board::Board;
use report::boards::{blank, with, with_second};
use stack::Stack;
use std::io;

// The board with 1 held and stacked by furnace 1.
fn one_tried(rt: &impl Print, b: Board) -> io::Result<()> {
    every(rt, stacked(with(b, 0), single(1), empty()), 1, 1)
}

// S of 0, 201 and so many that their double is no machine number; more rows in use than are lent; a row that is not sound; more rules counted than
// there are numbers; a premise of symbol 5 of 4, held by furnace 1, and by furnace 2.
fn boards(rt: &impl Print) -> io::Result<()> {
    every(rt, bare(blank(0, 0, 0)), 1, 1)?;
    one_tried(rt, blank(201, 0, 0))?;
    one_tried(rt, blank(9223372036854775808, 0, 0))?;
    one_tried(rt, blank(4, 6, 6))?;
    one_tried(rt, blank(4, 3, 3))?;
    one_tried(rt, blank(4, 2, 32768))?;
    one_tried(rt, with(blank(4, 2, 2), 8))?;
    one_tried(rt, with_second(blank(4, 2, 2), 9))
}

// The stack as that of furnace 1 and as that of furnace 2, the other being good; each of the two furnaces is named.
fn on_either(rt: &impl Print, s: Stack) -> io::Result<()> {
    by_both(rt, stacked(alike(), s, single(1)), 3)?;
    by_both(rt, stacked(alike(), single(1), s), 3)
}

// A repeated literal, next to itself and apart; 0, where no literal was put; one beyond S; the number with no opposite; one that is not held, though
// its opposite is; more literals than twice the symbols, and than there are places.
fn stacks(rt: &impl Print) -> io::Result<()> {
    on_either(rt, counting(2, &[1, 1]))?;
    on_either(rt, counting(3, &[1, -2, 1]))?;
    on_either(rt, counting(1, &[]))?;
    on_either(rt, single(4))?;
    on_either(rt, single(-32768))?;
    on_either(rt, single(2))?;
    on_either(rt, counting(7, &[1, -2, 3, 1, -2, 3, 1]))?;
    on_either(rt, counting(401, &[1]))?;
    on_either(rt, counting(65535, &[1, -2, 3]))
}

// "one its furnace doesn't hold": furnace 1 holds -2 and the other 2. Each is stacked by the wrong furnace, and then both by the right one.
fn of_the_other(rt: &impl Print) -> io::Result<()> {
    let first = with(with(with(blank(3, 0, 0), 0), 3), 4);
    let b = with_second(with_second(with_second(first, 0), 2), 4);
    by_both(rt, stacked(b, single(2), single(1)), 3)?;
    by_both(rt, stacked(b, single(1), single(-2)), 3)?;
    by_both(rt, stacked(b, single(-2), single(2)), 3)
}

// 1 for the record is ahead of 20, and of 16 and 2; so is 1 for the board.
fn ahead(rt: &impl Print) -> io::Result<()> {
    let d = stacked(alike(), counting(2, &[1, 1]), empty());
    every(rt, d, 2, 3)?;
    every(rt, d, 3, 0)?;
    every(rt, bare(blank(0, 0, 0)), 3, 0)
}

pub fn run(rt: &impl Print) -> io::Result<()> {
    boards(rt)?;
    stacks(rt)?;
    of_the_other(rt)?;
    ahead(rt)
}
