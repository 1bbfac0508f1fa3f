// The refusals, and the order of the tests: 1, 2, 19, 8, 9.

use crate::telling;
use board::Board;
use report::boards::{blank, with, with_second};
use std::io;

// On a board of 10 symbols with room for all.
fn variable(rt: &impl Print, first: usize, count: usize) -> io::Result<()> {
    telling::variable(rt, blank(10, 0, 0), 225, first, count)
}

fn pair_table(
    rt: &impl Print,
    first: usize,
    count: usize,
    other: usize,
    others: usize,
    pairs: usize,
) -> io::Result<()> {
    telling::pair_table(rt, blank(10, 0, 0), 225, first, count, other, others, pairs)
}

// The same position of both is allowed, of the first two.
fn same(
    rt: &impl Print,
    first: usize,
    count: usize,
    other: usize,
    others: usize,
) -> io::Result<()> {
    pair_table(rt, first, count, other, others, 0b0000010_0000001)
}

// Both calls, which are good on a board of 4 symbols.
fn good_calls(rt: &impl Print, b: Board) -> io::Result<()> {
    telling::variable(rt, b, 225, 1, 2)?;
    telling::pair_table(rt, b, 225, 1, 2, 3, 2, 0b0000010_0000001)
}

// 1: S of 0 and 201, more rows in use than are lent, a row that is not sound, more rules counted than there are numbers, a premise of symbol 5 of 4,
// held by furnace 1, and by furnace 2. It is ahead of 2, 19, 8 and 9.
fn spoilt(rt: &impl Print) -> io::Result<()> {
    good_calls(rt, blank(0, 0, 0))?;
    good_calls(rt, blank(201, 0, 0))?;
    good_calls(rt, blank(4, 26, 1))?;
    good_calls(rt, blank(4, 1, 1))?;
    good_calls(rt, blank(4, 0, 32768))?;
    good_calls(rt, with(blank(4, 0, 0), 8))?;
    good_calls(rt, with_second(blank(4, 0, 0), 8))?;
    telling::variable(rt, blank(0, 0, 0), 0, 0, 8)?;
    telling::pair_table(rt, blank(201, 0, 0), 0, 0, 8, 0, 8, 0)
}

// 2 for a variable: a first symbol that is 0, one more than S, and the most that can be said; a last symbol that is one more than S; so many
// positions that no board has them. It is so without a position, and ahead of 19 and 9.
fn off_board(rt: &impl Print) -> io::Result<()> {
    variable(rt, 0, 2)?;
    variable(rt, 11, 2)?;
    variable(rt, 18446744073709551615, 2)?;
    variable(rt, 10, 2)?;
    variable(rt, 4, 65535)?;
    variable(rt, 1, 18446744073709551615)?;
    variable(rt, 11, 0)?;
    variable(rt, 0, 1)?;
    telling::variable(rt, blank(4, 0, 32767), 0, 1, 8)
}

// 2 for the first variable of a pair table, and for the second. It is ahead of 19 for the other's count and for a shared symbol, of 8 and of 9.
fn pair_off_board(rt: &impl Print) -> io::Result<()> {
    same(rt, 0, 2, 3, 2)?;
    same(rt, 11, 2, 3, 2)?;
    same(rt, 10, 2, 3, 2)?;
    same(rt, 4, 65535, 1, 2)?;
    same(rt, 3, 2, 0, 2)?;
    same(rt, 3, 2, 11, 2)?;
    same(rt, 3, 2, 10, 2)?;
    same(rt, 1, 2, 4, 65535)?;
    same(rt, 1, 1, 11, 2)?;
    same(rt, 11, 0, 1, 8)?;
    same(rt, 9, 3, 9, 3)?;
    telling::pair_table(rt, blank(4, 0, 32767), 0, 1, 2, 4, 2, 0)
}

// "19 for a count outside 2 to 7": none, one, and eight that end at S; where they end beyond it, 2 is ahead. 19 is ahead of 9.
fn miscounted(rt: &impl Print) -> io::Result<()> {
    variable(rt, 10, 0)?;
    variable(rt, 10, 1)?;
    variable(rt, 3, 8)?;
    variable(rt, 4, 8)?;
    telling::variable(rt, blank(8, 0, 32767), 0, 1, 8)
}

// The same of either variable of a pair table.
fn pair_miscounted(rt: &impl Print) -> io::Result<()> {
    same(rt, 1, 0, 3, 2)?;
    same(rt, 1, 1, 3, 2)?;
    same(rt, 1, 8, 9, 2)?;
    same(rt, 3, 2, 1, 0)?;
    same(rt, 3, 2, 1, 1)?;
    same(rt, 9, 2, 1, 8)
}

// "or a pair table whose two variables share a symbol": all of them, the last with the first, the first with the last, those of one within the other.
// 19 is ahead of 8 and 9.
fn shared(rt: &impl Print) -> io::Result<()> {
    same(rt, 1, 2, 1, 2)?;
    same(rt, 1, 3, 3, 2)?;
    same(rt, 3, 2, 1, 3)?;
    same(rt, 1, 7, 3, 2)?;
    same(rt, 3, 2, 1, 7)?;
    pair_table(rt, 1, 2, 2, 2, 0)?;
    pair_table(rt, 1, 1, 3, 2, 0)?;
    telling::pair_table(rt, blank(4, 0, 32767), 0, 1, 2, 1, 2, 0)
}

// "8 for a pair table that allows no pair": no bit, and none but such as are ignored. It is ahead of 9 for the rows and for the rules.
fn impossible(rt: &impl Print) -> io::Result<()> {
    pair_table(rt, 1, 2, 3, 2, 0)?;
    pair_table(rt, 1, 2, 3, 2, 0x8002_0000_0000_4004)?;
    telling::pair_table(rt, blank(4, 0, 0), 0, 1, 2, 3, 2, 0)?;
    telling::pair_table(rt, blank(4, 0, 32767), 225, 1, 2, 3, 2, 0)
}

// 9 for the rows: one row too few, and just enough.
fn full(rt: &impl Print) -> io::Result<()> {
    let b = blank(4, 0, 0);
    telling::variable(rt, b, 17, 1, 2)?;
    telling::variable(rt, b, 18, 1, 2)?;
    telling::variable(rt, b, 35, 1, 3)?;
    telling::variable(rt, b, 36, 1, 3)?;
    telling::pair_table(rt, b, 35, 1, 2, 3, 2, 0b0000010_0000001)?;
    telling::pair_table(rt, b, 36, 1, 2, 3, 2, 0b0000010_0000001)
}

// 9 "also when the rule count would pass 32,767": a variable needs one number, a pair table one for each position.
fn rules(rt: &impl Print) -> io::Result<()> {
    telling::variable(rt, blank(4, 0, 32767), 225, 1, 2)?;
    telling::variable(rt, blank(4, 0, 32766), 225, 1, 2)?;
    telling::pair_table(rt, blank(4, 0, 32767), 225, 1, 2, 3, 2, 0b0000010_0000001)?;
    telling::pair_table(rt, blank(4, 0, 32764), 225, 1, 2, 3, 2, 0b0000010_0000001)?;
    telling::pair_table(rt, blank(4, 0, 32763), 225, 1, 2, 3, 2, 0b0000010_0000001)
}

pub fn run(rt: &impl Print) -> io::Result<()> {
    spoilt(rt)?;
    off_board(rt)?;
    pair_off_board(rt)?;
    miscounted(rt)?;
    pair_miscounted(rt)?;
    shared(rt)?;
    impossible(rt)?;
    full(rt)?;
    rules(rt)
}
