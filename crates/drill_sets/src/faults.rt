// The refusals 1, 2 and 17, and the order of the tests.

ghost use Rattle.std.specs.Prelude.{◌≤◌};

use crate::tables;
use crate::tables::{last, long, ways};
use board::Board;
use report::boards::{blank, with, with_second};
use std::io;

// A call that is good on the board of two ways.
fn good_call(rt: &impl Print, b: Board, lent: usize) -> io::Result<()>
    requires { lent ≤ 45 }
{
    tables::on(rt, b, lent, &[1, 2, 3], 4, 8)
}

// 1: S of 0 and 201, fewer rows lent than are in use, a row whose literals are not sound, a row of rule 2 where one rule is counted, more rules
// counted than there are numbers, a premise of symbol 5 of 4, held by furnace 1, and by furnace 2.
fn spoilt(rt: &impl Print) -> io::Result<()> {
    good_call(rt, blank(0, 2, 2), 45)?;
    good_call(rt, blank(201, 2, 2), 45)?;
    good_call(rt, blank(4, 2, 2), 17)?;
    good_call(rt, blank(4, 3, 3), 45)?;
    good_call(rt, blank(4, 2, 1), 45)?;
    good_call(rt, blank(4, 2, 32768), 45)?;
    good_call(rt, with(blank(4, 2, 2), 8), 45)?;
    good_call(rt, with_second(blank(4, 2, 2), 8), 45)
}

// "2 for any literal given": the one to explain is 0, -32768, one more than S, and its opposite; it is so with no candidates, and with 200 symbols.
fn no_literal(rt: &impl Print) -> io::Result<()> {
    ways(rt, &[1, 2, 3], 0, 8)?;
    ways(rt, &[1, 2, 3], -32768, 8)?;
    ways(rt, &[1, 2, 3], 5, 8)?;
    ways(rt, &[1, 2, 3], -5, 8)?;
    ways(rt, &[], 5, 8)?;
    last(rt, &[199], 201, 8)
}

// The same of a candidate: the only one, the last, the one between, the first. Also the thirteenth of the candidates, though they are too many.
fn no_candidate(rt: &impl Print) -> io::Result<()> {
    ways(rt, &[0], 4, 8)?;
    ways(rt, &[1, 2, -32768], 4, 8)?;
    ways(rt, &[1, 5, 3], 4, 8)?;
    ways(rt, &[-5, 3], 4, 8)?;
    last(rt, &[199, -201], 200, 8)?;
    long(rt, &[1, 2, 3, 4, 5, 6, 7, 8, 9, 10, 11, 12, 15], 14, 8)?;
    long(rt, &[1, 2, 3, 4, 5, 6, 7, 8, 9, 10, 11, 12, 0], 14, 8)
}

// "17 for more than 12 candidates or a repeated one": thirteen, and thirteen with one twice; twelve with the last twice, and with one at both ends;
// fewer with one twice, also where it is not needed, and where the rules are in conflict.
fn candidates(rt: &impl Print) -> io::Result<()> {
    long(rt, &[1, 2, 3, 4, 5, 6, 7, 8, 9, 10, 11, 12, 13], 14, 8)?;
    long(rt, &[1, 2, 3, 4, 5, 6, 7, 8, 9, 10, 11, 12, 1], 14, 8)?;
    long(rt, &[1, 2, 3, 4, 5, 6, 7, 8, 9, 10, 11, 11], 14, 8)?;
    long(rt, &[1, 2, 3, 4, 5, 6, 7, 8, 9, 10, 11, 1], 14, 8)?;
    ways(rt, &[3, 3], 4, 8)?;
    ways(rt, &[1, 2, 2, 3], 4, 8)?;
    ways(rt, &[-1, 2, 1, -1], 4, 8)?;
    tables::certain(rt, &[1, 1], 3, 8)?;
    tables::clash(rt, &[3, 3], 2, 8)
}

// 1 is ahead of 2 for the literal and for a candidate, of 17, of 13, and of all of them.
fn board_first(rt: &impl Print) -> io::Result<()> {
    tables::on(rt, blank(4, 2, 32768), 45, &[1, 2, 3], 0, 8)?;
    tables::on(rt, blank(4, 2, 1), 45, &[1, 5], 4, 8)?;
    tables::on(rt, with_second(blank(4, 2, 2), 8), 45, &[3, 3], 4, 8)?;
    tables::on(rt, with(blank(4, 2, 2), 8), 45, &[3], 4, 0)?;
    tables::on(rt, blank(0, 2, 2), 45, &[0, 0], 0, 0)
}

// 2 for the literal and for a candidate is ahead of 17, of 13, and of both; 17 is ahead of 13.
fn literals_first(rt: &impl Print) -> io::Result<()> {
    ways(rt, &[3, 3], 5, 8)?;
    ways(rt, &[3, 3, 0], 4, 8)?;
    ways(rt, &[5, 5], 4, 8)?;
    ways(rt, &[3], -32768, 0)?;
    ways(rt, &[3, 5], 4, 0)?;
    ways(rt, &[5, 5, 3], 4, 0)?;
    ways(rt, &[3, 3], 4, 0)?;
    long(rt, &[1, 2, 3, 4, 5, 6, 7, 8, 9, 10, 11, 12, 13], 13, 0)
}

pub fn run(rt: &impl Print) -> io::Result<()> {
    spoilt(rt)?;
    no_literal(rt)?;
    no_candidate(rt)?;
    candidates(rt)?;
    board_first(rt)?;
    literals_first(rt)
}
