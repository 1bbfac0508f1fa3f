// Lines of a try: a desk, a step, and the labels after it.

use crate::desks::Desk;
use crate::{printed, telling};
use report::printing;
use std::io;

// What settle tells for a furnace, on tables of just the length that it writes.
pub fn labels(rt: &impl Print, d: Desk, table: &[i16], furnace: u8) -> io::Result<()> {
    let board = d.board;
    let n = board.symbols;
    if n <= 200 {
        calls::settle(rt, board, table, furnace, n, 2 * n, 2 * n)?;
    }
    Ok(())
}

// What stands after a step: the labels, and the end of the line.
fn after(rt: &impl Print, next: Desk, table: &[i16], furnace: u8) -> io::Result<Desk> {
    labels(rt, next, table, furnace)?;
    printing::end(rt)?;
    Ok(next)
}

pub fn push(rt: &impl Print, d: Desk, table: &[i16], furnace: u8, l: i16) -> io::Result<Desk> {
    printed::on(rt, d, 45)?;
    let next = telling::push(rt, d, table, furnace, l)?;
    after(rt, next, table, furnace)
}

pub fn pop(rt: &impl Print, d: Desk, table: &[i16], furnace: u8) -> io::Result<Desk> {
    printed::on(rt, d, 45)?;
    let next = telling::pop(rt, d, table, furnace)?;
    after(rt, next, table, furnace)
}

pub fn withdraw(rt: &impl Print, d: Desk, table: &[i16], furnace: u8, l: i16) -> io::Result<Desk> {
    printed::on(rt, d, 45)?;
    let next = telling::withdraw(rt, d, table, furnace, l)?;
    after(rt, next, table, furnace)
}
