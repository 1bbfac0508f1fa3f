// The least to withdraw: of each kind of conflict, for each furnace, and the refusals in their order.

ghost use Rattle.std.specs.Prelude.{◌≤◌};

use crate::telling::show_least;
use board::Board;
use report::boards;
use report::boards::{blank, with, with_second};
use std::io;

// 1 is against 2, and 1 against 3.
fn one_against_two() -> [i16; 45] {
    boards::table(&[-1, -2, 0, 0, 0, 0, 0, 0, 1, -1, -3, 0, 0, 0, 0, 0, 0, 2])
}

// With these rows, for furnace 1, which holds 1 to 4.
fn against(rt: &impl Print, candidates: &[i16]) -> io::Result<()> {
    let b = with(with(with(with(blank(4, 2, 2), 0), 2), 4), 6);
    show_least(rt, b, one_against_two(), 45, 1, candidates)
}

// One premise ends both conflicts, wherever it stands; without it two are needed, and nothing is enough without one of these; no candidates.
fn two_conflicts(rt: &impl Print) -> io::Result<()> {
    against(rt, &[1, 2, 3])?;
    against(rt, &[4, 3, 2, 1])?;
    against(rt, &[2, 3])?;
    against(rt, &[4, 3, 2])?;
    against(rt, &[4, 3])?;
    against(rt, &[])
}

// 1 to 4, each of the first and the last against each of the others: "of equal size, the one with the smallest number", 2 and 3 ahead of 1 and 4, and
// in another order the other way round.
fn equal_size(rt: &impl Print) -> io::Result<()> {
    let three = boards::three_rows(
        [-1, -2, 0, 0, 0, 0, 0, 0, 1],
        [-1, -3, 0, 0, 0, 0, 0, 0, 2],
        [-2, -4, 0, 0, 0, 0, 0, 0, 3],
    );
    let four = boards::with_row(three, 3, [-3, -4, 0, 0, 0, 0, 0, 0, 4]);
    let b = with(with(with(with(blank(4, 4, 4), 0), 2), 4), 6);
    show_least(rt, b, four, 45, 1, &[1, 2, 3, 4])?;
    show_least(rt, b, four, 45, 1, &[2, 1, 4, 3])?;
    show_least(rt, b, four, 45, 1, &[1, 2, 4])?;
    show_least(rt, b, four, 45, 1, &[1, 2])
}

// Through a chain: 1 gives 2, 2 gives 3, and 3 is against 4. The literal between, held as well, must go with the first; the last alone is enough.
fn chains(rt: &impl Print) -> io::Result<()> {
    let rows = boards::three_rows(
        [-1, 2, 0, 0, 0, 0, 0, 0, 1],
        [-2, 3, 0, 0, 0, 0, 0, 0, 2],
        [-3, -4, 0, 0, 0, 0, 0, 0, 3],
    );
    let b = with(with(with(blank(4, 3, 3), 0), 2), 6);
    show_least(rt, b, rows, 45, 1, &[1, 2, 4])?;
    show_least(rt, b, rows, 45, 1, &[2, 1])?;
    show_least(rt, b, rows, 45, 1, &[2])?;
    show_least(rt, b, rows, 45, 1, &[1])
}

// A literal and its opposite, at each furnace: either, the first given; and the furnace that is not in conflict, with candidates and without.
fn furnaces(rt: &impl Print) -> io::Result<()> {
    let first = with(with(blank(2, 0, 0), 0), 1);
    let rows = boards::table(&[]);
    show_least(rt, with_second(first, 2), rows, 45, 1, &[1, -1])?;
    show_least(rt, with_second(first, 2), rows, 45, 1, &[-1, 1])?;
    show_least(rt, with_second(first, 2), rows, 45, 2, &[2])?;
    show_least(rt, with_second(first, 2), rows, 45, 2, &[])?;
    let second = with_second(with_second(blank(2, 0, 0), 2), 3);
    show_least(rt, with(second, 0), rows, 45, 2, &[-2])?;
    show_least(rt, with(second, 0), rows, 45, 1, &[1])?;
    show_least(rt, with(second, 0), rows, 45, 1, &[-2])
}

// The board with both literals of a symbol held, at these places.
fn opposed(b: Board, p: usize, q: usize) -> Board {
    with(with(b, p), q)
}

// All literals of six symbols: one of each, so the first six of twelve, by size and then by number.
fn twelve(rt: &impl Print) -> io::Result<()> {
    let three = opposed(opposed(opposed(blank(7, 0, 0), 0, 1), 2, 3), 4, 5);
    let b = opposed(opposed(opposed(three, 6, 7), 8, 9), 10, 11);
    let rows = boards::table(&[]);
    show_least(
        rt,
        b,
        rows,
        45,
        1,
        &[1, 2, 3, 4, 5, 6, -1, -2, -3, -4, -5, -6],
    )?;
    show_least(
        rt,
        b,
        rows,
        45,
        1,
        &[1, -1, 2, -2, 3, -3, 4, -4, 5, -5, 6, -6],
    )?;
    show_least(rt, b, rows, 45, 1, &[1, 2, 3, 4, 5, -5])?;
    show_least(rt, b, rows, 45, 1, &[-6, -5, -4, -3, -2, -1])?;
    show_least(
        rt,
        b,
        rows,
        45,
        1,
        &[1, 2, 3, 4, 5, 6, -1, -2, -3, -4, -5, -6, 7],
    )?;
    show_least(
        rt,
        b,
        rows,
        45,
        1,
        &[1, 2, 3, 4, 5, 6, -1, -2, -3, -4, -5, -6, 8],
    )
}

// 1 and -1 by rules alone: nothing ends it, whatever is held.
fn rules_alone(rt: &impl Print) -> io::Result<()> {
    let rows = boards::table(&[1, 0, 0, 0, 0, 0, 0, 0, 1, -1, 0, 0, 0, 0, 0, 0, 0, 2]);
    show_least(rt, with(blank(2, 2, 2), 2), rows, 45, 1, &[2])?;
    show_least(rt, with(blank(2, 2, 2), 2), rows, 45, 1, &[])?;
    show_least(rt, with(blank(2, 2, 2), 2), rows, 45, 2, &[])
}

// With the rows of 1 against 2 and 3, a board of any kind.
fn on(rt: &impl Print, b: Board, lent: usize, furnace: u8, candidates: &[i16]) -> io::Result<()>
    requires { lent ≤ 45 }
{
    show_least(rt, b, one_against_two(), lent, furnace, candidates)
}

// 1, 16, 2, 17, 11 and 18, each with those that come after it; 11 also where there is no conflict.
fn refusals(rt: &impl Print) -> io::Result<()> {
    let b = with(with(with(with(blank(4, 2, 2), 0), 2), 4), 6);
    on(rt, b, 9, 3, &[4, 4, -3, 5])?;
    on(rt, b, 45, 3, &[4, 4, -3, 5])?;
    on(rt, b, 45, 0, &[4, 4, -3, 5])?;
    on(rt, b, 45, 1, &[4, 4, -3, 5])?;
    on(rt, b, 45, 1, &[0, 4, 4])?;
    on(rt, b, 45, 1, &[4, 4, -3])?;
    on(rt, b, 45, 1, &[4, -3])?;
    on(rt, b, 45, 2, &[4])?;
    on(rt, b, 45, 1, &[4])
}

// 1: S of 0, a premise of symbol 5 of 4 at either furnace, more rules counted than there are numbers; and all else at once.
fn spoilt(rt: &impl Print) -> io::Result<()> {
    on(rt, blank(0, 2, 2), 45, 1, &[])?;
    on(rt, with(blank(4, 2, 2), 8), 45, 1, &[])?;
    on(rt, with_second(blank(4, 2, 2), 8), 45, 1, &[])?;
    on(rt, blank(4, 2, 32768), 45, 1, &[])?;
    on(rt, blank(201, 2, 2), 45, 255, &[0, 0])
}

pub fn run(rt: &impl Print) -> io::Result<()> {
    two_conflicts(rt)?;
    equal_size(rt)?;
    chains(rt)?;
    furnaces(rt)?;
    twelve(rt)?;
    rules_alone(rt)?;
    refusals(rt)?;
    spoilt(rt)
}
