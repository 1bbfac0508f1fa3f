// Lists of sets: of each kind of board, of premises that do not count, of the most candidates, and with just enough room.

use crate::tables;
use crate::tables::{both, certain, clash, either, last, long, many, never_both, torn, ways};
use board::Board;
use report::boards::{blank, with, with_second};
use std::io;

// "order by size, then by number": 3 alone is ahead of 1 and 2, whatever the order of the candidates. The literal itself as a candidate, and its
// opposite; literals below 0.
fn two_ways(rt: &impl Print) -> io::Result<()> {
    ways(rt, &[1, 2, 3], 4, 8)?;
    ways(rt, &[2, 3, 1], 4, 8)?;
    ways(rt, &[3], 4, 8)?;
    ways(rt, &[1, 3, 2], 1, 8)?;
    ways(rt, &[4, 3], 4, 8)?;
    ways(rt, &[-4, 3], 4, 8)?;
    ways(rt, &[-4, 1, 2], -3, 8)?;
    ways(rt, &[-4, 1, 2], -1, 8)
}

// "an empty list is a good result": of candidates that are too few, of a literal that no row has, of no candidates. Then the second row is not in
// use, so that 1 and 2 are no way.
fn fewer_ways(rt: &impl Print) -> io::Result<()> {
    ways(rt, &[1], 4, 8)?;
    ways(rt, &[1, 2, 3], -4, 8)?;
    ways(rt, &[], 4, 8)?;
    tables::on(rt, blank(4, 1, 1), 45, &[1, 2, 3], 4, 8)
}

// Of equal size by number: the first candidate with the last, and the two between them ahead of these. Then one set of one and nine of two.
fn several(rt: &impl Print) -> io::Result<()> {
    tables::pairs(rt, &[1, 2, 3, 4], 5, 8)?;
    many(rt, &[1, 2, 3, 4, 7, 8, 9], 9, 20)
}

// A candidate and its opposite: each is a way; or both are needed, which are in conflict, and others are ways with either.
fn opposites(rt: &impl Print) -> io::Result<()> {
    either(rt, &[1, -1], 2, 8)?;
    either(rt, &[], 2, 8)?;
    both(rt, &[1, -1], 4, 8)?;
    both(rt, &[1, -1, 2, 3], 4, 8)
}

// 2 and 3 need nothing, with candidates and with none; 1 does. -2 is in conflict with the rules.
fn certainties(rt: &impl Print) -> io::Result<()> {
    certain(rt, &[1, 2], 2, 8)?;
    certain(rt, &[1, 2], 3, 8)?;
    certain(rt, &[], 3, 8)?;
    certain(rt, &[], 1, 8)?;
    certain(rt, &[2, 1], 1, 8)?;
    certain(rt, &[-2, -3], -2, 8)
}

// "without conflict": 1 and 2 derive 4 and are in conflict, about 1 and 2; 1 alone derives 4 and is in conflict, about 4. Then the rules alone are,
// and nothing is listed.
fn conflicts(rt: &impl Print) -> io::Result<()> {
    never_both(rt, &[1, 2], 4, 8)?;
    never_both(rt, &[1, 2, 3], 4, 8)?;
    never_both(rt, &[1, 2, 3], -2, 8)?;
    torn(rt, &[1], 4, 8)?;
    torn(rt, &[1, 4, -4], -1, 8)?;
    clash(rt, &[2, 3], 2, 8)?;
    clash(rt, &[2, 3], 3, 8)?;
    clash(rt, &[], 2, 8)
}

fn with_premises(rt: &impl Print, b: Board, candidates: &[i16]) -> io::Result<()> {
    tables::on(rt, b, 45, candidates, 4, 8)
}

// "Premises held on the board don't count, and no furnace is named": 1 held by furnace 1, and by furnace 2; 3 by one and 4 by the other; and a
// furnace in conflict.
fn premises(rt: &impl Print) -> io::Result<()> {
    let none = blank(4, 2, 2);
    with_premises(rt, with(none, 0), &[2])?;
    with_premises(rt, with(none, 0), &[1, 2])?;
    with_premises(rt, with_second(none, 0), &[2])?;
    with_premises(rt, with_second(none, 0), &[1, 2])?;
    with_premises(rt, with_second(with(none, 4), 6), &[1, 2])?;
    with_premises(rt, with(with(none, 4), 5), &[1, 2, 3])?;
    with_premises(rt, with_second(with_second(none, 4), 5), &[1, 2, 3])
}

// Twelve candidates: all are needed, the first seven, the last; 13 and five more; all again, by opposites; none is of use.
fn twelve(rt: &impl Print) -> io::Result<()> {
    long(rt, &[1, 2, 3, 4, 5, 6, 7, 8, 9, 10, 11, 12], 14, 8)?;
    long(rt, &[1, 2, 3, 4, 5, 6, 7, 8, 9, 10, 11, 12], 13, 8)?;
    long(rt, &[1, 2, 3, 4, 5, 6, 7, 8, 9, 10, 11, 12], 12, 8)?;
    long(rt, &[13, 12, 11, 10, 9, 8, 7, 6, 5, 4, 3, 2], 14, 8)?;
    long(rt, &[-14, 8, 9, 10, 11, 12, 1, 2, 3, 4, 5, 6], -7, 8)?;
    long(
        rt,
        &[-1, -2, -3, -4, -5, -6, -7, -8, -9, -10, -11, -12],
        14,
        8,
    )
}

// The last symbol of 200, and the one symbol of one; no row lent, and as many rules counted as there are numbers.
fn ends(rt: &impl Print) -> io::Result<()> {
    last(rt, &[199, -200], 200, 8)?;
    last(rt, &[199, -200], -199, 8)?;
    last(rt, &[-1, 200, -200], -200, 8)?;
    tables::on(rt, blank(1, 0, 0), 45, &[1, -1], -1, 8)?;
    tables::on(rt, blank(200, 0, 32767), 0, &[-200], -200, 8)
}

// 13 with one place too few and with none, and not with exactly enough, nor for a list of no sets.
fn room(rt: &impl Print) -> io::Result<()> {
    ways(rt, &[1, 2, 3], 4, 3)?;
    ways(rt, &[1, 2, 3], 4, 2)?;
    ways(rt, &[1, 2, 3], 4, 1)?;
    ways(rt, &[1, 2, 3], 4, 0)?;
    ways(rt, &[1, 2], 3, 0)?;
    many(rt, &[1, 2, 3, 4, 7, 8, 9], 9, 10)?;
    many(rt, &[1, 2, 3, 4, 7, 8, 9], 9, 9)?;
    certain(rt, &[], 3, 1)?;
    certain(rt, &[], 3, 0)?;
    certain(rt, &[], 1, 0)?;
    clash(rt, &[2, 3], 2, 0)
}

pub fn run(rt: &impl Print) -> io::Result<()> {
    two_ways(rt)?;
    fewer_ways(rt)?;
    several(rt)?;
    opposites(rt)?;
    certainties(rt)?;
    conflicts(rt)?;
    premises(rt)?;
    twelve(rt)?;
    ends(rt)?;
    room(rt)
}
