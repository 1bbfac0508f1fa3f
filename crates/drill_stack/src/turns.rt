// Both furnaces try in turn, on the journal's two rows: 1 implies 2, and 2 and 3 imply 4. Each has its own stack, and each line tells the labels of
// both.

use crate::desks::{Desk, bare};
use crate::tries::labels;
use crate::{printed, telling};
use report::{boards, printing};
use std::io;

// The end of a line.
fn of_both(rt: &impl Print, d: Desk, table: &[i16]) -> io::Result<()> {
    labels(rt, d, table, 1)?;
    labels(rt, d, table, 2)?;
    printing::end(rt)
}

fn push(rt: &impl Print, d: Desk, table: &[i16], furnace: u8, l: i16) -> io::Result<Desk> {
    printed::on(rt, d, 45)?;
    let next = telling::push(rt, d, table, furnace, l)?;
    of_both(rt, next, table)?;
    Ok(next)
}

fn pop(rt: &impl Print, d: Desk, table: &[i16], furnace: u8) -> io::Result<Desk> {
    printed::on(rt, d, 45)?;
    let next = telling::pop(rt, d, table, furnace)?;
    of_both(rt, next, table)?;
    Ok(next)
}

// Furnace 1 tries 1 and 3, so that 4 stands; furnace 2 tries 3 and 2, and 4 stands there too.
fn up(rt: &impl Print, d: Desk, table: &[i16]) -> io::Result<Desk> {
    let a = push(rt, d, table, 1, 1)?;
    let b = push(rt, a, table, 2, 3)?;
    let c = push(rt, b, table, 1, 3)?;
    push(rt, c, table, 2, 2)
}

// Furnace 1 takes 3 back and tries -4 instead, which rules 3 out; then each takes all back, furnace 2 once more than it tried.
fn down(rt: &impl Print, d: Desk, table: &[i16]) -> io::Result<()> {
    let a = pop(rt, d, table, 1)?;
    let b = push(rt, a, table, 1, -4)?;
    let c = pop(rt, b, table, 2)?;
    let e = pop(rt, c, table, 1)?;
    let f = pop(rt, e, table, 2)?;
    let g = pop(rt, f, table, 2)?;
    pop(rt, g, table, 1)?;
    Ok(())
}

pub fn run(rt: &impl Print) -> io::Result<()> {
    let table = boards::rows();
    down(rt, up(rt, bare(boards::none()), &table)?, &table)
}
