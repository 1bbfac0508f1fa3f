// Ask by symbol and of the whole board: 1 implies 2, 2 implies -4, and what is told of every literal, without a conflict and in one.

use board::Board;
use report::boards::{GUARD, with};
use report::{boards, printing};
use std::io;

fn symbol(
    rt: &impl Print,
    b: Board,
    table: &[i16],
    furnace: u8,
    plus: i16,
    minus: i16,
) -> io::Result<()> {
    calls::ask(rt, b, table, furnace, plus)?;
    calls::ask(rt, b, table, furnace, minus)
}

fn told(rt: &impl Print, b: Board, table: &[i16], furnace: u8) -> io::Result<()> {
    printing::on(rt, b, 45)?;
    calls::settle(rt, b, table, furnace, 5, 10, 10)?;
    symbol(rt, b, table, furnace, 1, -1)?;
    symbol(rt, b, table, furnace, 2, -2)?;
    symbol(rt, b, table, furnace, 3, -3)?;
    symbol(rt, b, table, furnace, 4, -4)?;
    symbol(rt, b, table, furnace, 5, -5)?;
    printing::end(rt)
}

// Furnace 1 holds 1 and 3: 1, 2 and 3 stand, 4 is ruled out, 5 is open. With -3 too 3 is in conflict, and nothing else; furnace 2 has no part in it.
// With -2 instead 1 and 2 are, and 4 stays ruled out.
fn by_premises(rt: &impl Print, table: &[i16]) -> io::Result<()> {
    let quiet = with(with(boards::blank(5, 2, 2), 0), 4);
    told(rt, quiet, table, 1)?;
    told(rt, with(quiet, 5), table, 1)?;
    told(rt, with(quiet, 5), table, 2)?;
    told(rt, with(quiet, 3), table, 1)
}

// The rows 3 and -3: in conflict without a premise, and with 5 held by furnace 1.
fn by_rows(rt: &impl Print, table: &[i16]) -> io::Result<()> {
    let b = with(boards::blank(5, 2, 2), 8);
    told(rt, b, table, 1)?;
    told(rt, b, table, 2)
}

pub fn run(rt: &impl Print) -> io::Result<()> {
    let rows = boards::three_rows(
        [-1, 2, 0, 0, 0, 0, 0, 0, 1],
        [-2, -4, 0, 0, 0, 0, 0, 0, 2],
        [GUARD; 9],
    );
    by_premises(rt, &rows)?;
    let clashing = boards::three_rows(
        [3, 0, 0, 0, 0, 0, 0, 0, 1],
        [-3, 0, 0, 0, 0, 0, 0, 0, 2],
        [GUARD; 9],
    );
    by_rows(rt, &clashing)
}
