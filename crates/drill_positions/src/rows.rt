// The rows that are added, and the numbers of their rules. A number of allowed pairs is written as sevens of bits, those of the last position of the
// first variable in front.

ghost use Rattle.std.specs.Prelude.{◌≤◌};

use crate::telling::{enter_pairs, enter_variable, pair_table, variable};
use report::boards::{GUARD, blank, with, with_second};
use report::printing;
use std::io;

// "exactly one true", of each count: no two of the symbols, and one of them. Of two symbols both clauses are as long, and + is before -.
fn counts(rt: &impl Print) -> io::Result<()> {
    variable(rt, blank(2, 0, 0), 225, 1, 2)?;
    variable(rt, blank(4, 0, 0), 225, 2, 3)?;
    variable(rt, blank(4, 0, 0), 225, 1, 4)?;
    variable(rt, blank(9, 0, 0), 225, 3, 5)?;
    variable(rt, blank(6, 0, 0), 225, 1, 6)?;
    variable(rt, blank(7, 0, 0), 225, 1, 7)
}

// The last symbols of 200, with premises, which stay; and where five rules with no row were accepted.
fn ends(rt: &impl Print) -> io::Result<()> {
    variable(rt, with_second(with(blank(200, 0, 0), 0), 399), 225, 199, 2)?;
    variable(rt, blank(200, 0, 5), 225, 198, 3)
}

// "the clause that it is false or some allowed position of the other is true", of two positions with three: the first with the first and the last,
// the second with the middle one. The first variable is the lower, and the higher. Then the same pairs, the variables named the other way round.
fn sides(rt: &impl Print) -> io::Result<()> {
    pair_table(rt, blank(5, 0, 0), 225, 1, 2, 3, 3, 0b0000010_0000101)?;
    pair_table(rt, blank(5, 0, 0), 225, 4, 2, 1, 3, 0b0000010_0000101)?;
    pair_table(
        rt,
        blank(5, 0, 0),
        225,
        3,
        3,
        1,
        2,
        0b0000001_0000010_0000001,
    )?;
    pair_table(rt, blank(9, 0, 5), 225, 6, 2, 1, 3, 0b0000010_0000101)
}

// Only the first position of the first variable with the second of the other: the two positions that have no partner are false. The first variable is
// the lower, and the higher. Then "other bits ignored": a third position of either, and the bits 49 and 63. Then every bit.
fn partners(rt: &impl Print) -> io::Result<()> {
    pair_table(rt, blank(4, 0, 0), 225, 1, 2, 3, 2, 0b0000010)?;
    pair_table(rt, blank(4, 0, 0), 225, 3, 2, 1, 2, 0b0000010)?;
    pair_table(rt, blank(4, 0, 0), 225, 1, 2, 3, 2, 0x8002_0000_0000_4006)?;
    pair_table(rt, blank(4, 0, 0), 225, 1, 2, 3, 2, 0xffff_ffff_ffff_ffff)
}

// "bit 7i+j": the first of two positions with each of seven, the second with the last. Of seven with seven the last two alone, bit 48; and each with
// each, so that a row has eight literals.
fn sevens(rt: &impl Print) -> io::Result<()> {
    pair_table(rt, blank(9, 0, 0), 225, 1, 2, 3, 7, 0b1000000_1111111)?;
    pair_table(rt, blank(14, 0, 0), 225, 1, 7, 8, 7, 0x1_0000_0000_0000)?;
    pair_table(rt, blank(200, 0, 0), 225, 194, 7, 1, 7, 0x1_ffff_ffff_ffff)
}

// "entered as one rule", "each such clause counts as one rule": two variables and a table between them, on one board.
fn in_turn(rt: &impl Print, lent: usize) -> io::Result<()>
    requires { lent ≤ 225 }
{
    let none = [GUARD; 225];
    let mut table = none;
    let empty = blank(4, 0, 0);
    printing::on(rt, empty, lent)?;
    let one = enter_variable(rt, empty, &none, &mut table, lent, 1, 2)?;
    let given = table;
    let two = enter_variable(rt, one, &given, &mut table, lent, 3, 2)?;
    let entered = table;
    enter_pairs(
        rt,
        two,
        &entered,
        &mut table,
        lent,
        1,
        2,
        3,
        2,
        0b0000001_0000010,
    )?;
    printing::end(rt)
}

// With just enough rows, with one too few for the pair table, and with one too few for the second variable.
fn room(rt: &impl Print) -> io::Result<()> {
    in_turn(rt, 72)?;
    in_turn(rt, 63)?;
    in_turn(rt, 27)
}

pub fn run(rt: &impl Print) -> io::Result<()> {
    counts(rt)?;
    ends(rt)?;
    sides(rt)?;
    partners(rt)?;
    sevens(rt)?;
    room(rt)
}
