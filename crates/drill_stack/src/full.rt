// A full stack: every literal of three symbols. Its furnace is in conflict while it has both literals of one.

use crate::desks::{Desk, bare};
use crate::printed;
use crate::telling::every;
use crate::tries::{pop, push};
use report::boards::blank;
use report::{boards, printing};
use std::io;

// Furnace 2 tries all six literals.
fn up(rt: &impl Print, d: Desk, table: &[i16]) -> io::Result<Desk> {
    let a = push(rt, d, table, 2, 2)?;
    let b = push(rt, a, table, 2, -3)?;
    let c = push(rt, b, table, 2, 1)?;
    let e = push(rt, c, table, 2, -2)?;
    let f = push(rt, e, table, 2, 3)?;
    push(rt, f, table, 2, -1)
}

// It takes all six back, and once more than it tried.
fn down(rt: &impl Print, d: Desk, table: &[i16]) -> io::Result<()> {
    let a = pop(rt, d, table, 2)?;
    let b = pop(rt, a, table, 2)?;
    let c = pop(rt, b, table, 2)?;
    let e = pop(rt, c, table, 2)?;
    let f = pop(rt, e, table, 2)?;
    let g = pop(rt, f, table, 2)?;
    pop(rt, g, table, 2)?;
    Ok(())
}

// In conflict, for furnace 2 alone.
fn asked(rt: &impl Print, d: Desk, table: &[i16]) -> io::Result<()> {
    printed::on(rt, d, 45)?;
    let board = d.board;
    calls::ask(rt, board, table, 2, 1)?;
    calls::ask(rt, board, table, 2, -3)?;
    calls::ask(rt, board, table, 1, 1)?;
    calls::blame(rt, board, table, 2, 6)?;
    printing::end(rt)
}

pub fn run(rt: &impl Print) -> io::Result<()> {
    let table = boards::rows();
    let all = up(rt, bare(blank(3, 0, 0)), &table)?;
    asked(rt, all, &table)?;
    every(rt, all, 2, 2)?;
    down(rt, all, &table)
}
