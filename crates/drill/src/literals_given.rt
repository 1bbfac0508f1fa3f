// The calls that are given a literal: one of no symbol of the board's, and one that is held, derived, or neither.

use board::Board;
use report::{boards, printing};
use std::io;

// Hold and withdraw, each on the board as it is, and then ask, explain and ground.
fn show(rt: &impl Print, b: Board, l: i16) -> io::Result<()> {
    let table = boards::rows();
    printing::on(rt, b, 45)?;
    calls::hold(rt, b, &table, 1, l)?;
    calls::withdraw(rt, b, &table, 1, l)?;
    calls::ask(rt, b, &table, 1, l)?;
    calls::explain(rt, b, &table, 1, l)?;
    calls::ground(rt, b, &table, 1, l, 8)?;
    printing::end(rt)
}

// Hold twice, hold the opposite, withdraw twice: each is given the board that the one before handed back.
fn one_after_another(rt: &impl Print, table: &[i16]) -> io::Result<()> {
    let a = boards::none();
    printing::on(rt, a, 45)?;
    let b = calls::hold(rt, a, table, 1, 4)?;
    let c = calls::hold(rt, b, table, 1, 4)?;
    let d = calls::hold(rt, c, table, 1, -4)?;
    let e = calls::withdraw(rt, d, table, 1, 4)?;
    calls::withdraw(rt, e, table, 1, 4)?;
    printing::end(rt)
}

pub fn run(rt: &impl Print) -> io::Result<()> {
    let b = boards::both();
    show(rt, b, 0)?;
    show(rt, b, 5)?;
    show(rt, b, -5)?;
    show(rt, b, -32768)?;
    show(rt, b, 4)?;
    show(rt, b, -4)?;
    show(rt, b, 2)?;
    show(rt, b, 1)?;
    show(rt, boards::none(), 4)?;
    show(rt, boards::clash(), 3)?;
    show(rt, boards::with(boards::clash(), 0), 4)?;
    one_after_another(rt, &boards::rows())
}
