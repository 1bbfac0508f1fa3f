// What is ruled out: "conflict exactly when removing positions without an allowed partner, repeated until none is left to remove, empties some
// variable; otherwise a position is ruled out exactly when it is removed".

use crate::valves;
use board::Board;
use report::boards::{GUARD, with, with_second};
use report::printing;
use std::io;

// Asks for each of some literals, by a furnace.
fn ask_each(
    rt: &impl Print,
    b: Board,
    table: &[i16],
    furnace: u8,
    asked: &[i16],
) -> io::Result<()> {
    asked
        .iter()
        .try_for_each(|l| calls::ask(rt, b, table, furnace, *l))
}

// A line: a board, and the answers.
fn show(rt: &impl Print, b: Board, table: &[i16], furnace: u8, asked: &[i16]) -> io::Result<()> {
    printing::on(rt, b, table.len())?;
    ask_each(rt, b, table, furnace, asked)?;
    printing::end(rt)
}

// A line: a board and its rows.
fn built(rt: &impl Print, b: Board, table: &[i16]) -> io::Result<()> {
    printing::on(rt, b, table.len())?;
    printing::rows(rt, table, 0, b.rows)?;
    printing::end(rt)
}

// "A premise +s removes the variable's other positions, −s its own": nothing is held; 1; 1 and 5; -1; -1 and -2.
fn apart(rt: &impl Print, b: Board, table: &[i16]) -> io::Result<()> {
    show(rt, b, table, 1, &[1, 2, 3, 4, 5, 6])?;
    show(rt, with(b, 0), table, 1, &[1, 2, 3, 4, 5, 6])?;
    show(rt, with(with(b, 0), 8), table, 1, &[1, 2, 3, 4, 5, 6])?;
    show(rt, with(b, 1), table, 1, &[1, 2, 3, 4, 5, 6])?;
    show(rt, with(with(b, 1), 3), table, 1, &[1, 2, 3, 4, 5, 6])
}

// A variable is emptied: 1 and 4 are held, the same position of both; 1 and 2; all of the first valve's positions are held to be false; "and holding
// both empties it": 1 and -1. The other furnace is not concerned.
fn emptied(rt: &impl Print, b: Board, table: &[i16]) -> io::Result<()> {
    show(rt, with(with(b, 0), 6), table, 1, &[1, 4, 5])?;
    show(rt, with(with(b, 0), 2), table, 1, &[1, 3, 4])?;
    show(rt, with(with(with(b, 1), 3), 5), table, 1, &[1, 4])?;
    show(rt, with(with(b, 0), 1), table, 1, &[1, 2, 6])?;
    show(rt, with(with(b, 0), 1), table, 2, &[1, 2, 6])?;
    show(
        rt,
        with_second(with(with(b, 0), 1), 0),
        table,
        2,
        &[1, 2, 3, 4, 5, 6],
    )
}

// A premise that is withdrawn gives the positions back.
fn withdrawn(rt: &impl Print, b: Board, table: &[i16]) -> io::Result<()> {
    printing::on(rt, b, table.len())?;
    let held = calls::hold(rt, b, table, 1, 6)?;
    ask_each(rt, held, table, 1, &[1, 2, 3, 4, 5])?;
    ask_each(rt, held, table, 2, &[3, 6])?;
    let free = calls::withdraw(rt, held, table, 1, 6)?;
    ask_each(rt, free, table, 1, &[1, 2, 3, 4, 5, 6])?;
    printing::end(rt)
}

// One premise fixes all valves of the chain, from either end and from within, for each furnace by its own. Both ends are held against each other.
fn chain(rt: &impl Print, b: Board, table: &[i16]) -> io::Result<()> {
    show(rt, b, table, 1, &[1, 8])?;
    show(rt, with(b, 0), table, 1, &[1, 2, 3, 4, 5, 6, 7, 8])?;
    show(rt, with(b, 13), table, 1, &[1, 2, 3, 4, 5, 6, 7, 8])?;
    show(
        rt,
        with_second(with(b, 0), 6),
        table,
        2,
        &[1, 2, 3, 4, 5, 6, 7, 8],
    )?;
    show(rt, with(with(b, 0), 12), table, 1, &[4, 5, 8])
}

// Each position has a partner in each table, so that none is removed, though the tables allow no pair together. With 1 held the second valve is
// emptied, and the third is in no conflict of its own.
fn torn(rt: &impl Print, b: Board, table: &[i16]) -> io::Result<()> {
    show(rt, b, table, 1, &[1, 2, 3, 4, 5, 6])?;
    show(rt, with(b, 0), table, 1, &[1, 2, 3, 4, 5, 6])?;
    show(rt, with(b, 8), table, 1, &[1, 4, 5, 6])
}

// Positions without a partner are removed with nothing held, and so are those that have no other partner. With -8 held the rest is fixed. A position
// that is removed is held.
fn narrow(rt: &impl Print, b: Board, table: &[i16]) -> io::Result<()> {
    show(rt, b, table, 1, &[1, 2, 3, 4, 5, 6, 7, 8, 9])?;
    show(rt, with(b, 15), table, 1, &[1, 2, 3, 4, 5, 6, 7, 8, 9])?;
    show(rt, with(b, 12), table, 1, &[1, 6, 7])?;
    show(rt, with(b, 12), table, 2, &[1, 6, 7])
}

fn two_valves(rt: &impl Print) -> io::Result<()> {
    let mut table = [GUARD; 225];
    let b = valves::apart(&mut table);
    built(rt, b, &table)?;
    apart(rt, b, &table)?;
    emptied(rt, b, &table)?;
    withdrawn(rt, b, &table)
}

fn more_valves(rt: &impl Print) -> io::Result<()> {
    let mut table = [GUARD; 225];
    let b = valves::chain(&mut table);
    built(rt, b, &table)?;
    chain(rt, b, &table)?;
    let c = valves::torn(&mut table);
    built(rt, c, &table)?;
    torn(rt, c, &table)?;
    let d = valves::narrow(&mut table);
    built(rt, d, &table)?;
    narrow(rt, d, &table)
}

pub fn run(rt: &impl Print) -> io::Result<()> {
    two_valves(rt)?;
    more_valves(rt)
}
