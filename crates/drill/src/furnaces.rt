// Two furnaces on one board: neither answers for what the other holds, and 16 for a furnace of any other number.

ghost use Rattle.std.specs.Prelude.{◌≤◌};

use crate::named;
use board::Board;
use report::boards::{with, with_second};
use report::{boards, printing};
use std::io;

// Literals 1 and 2, which follows from 1, as they stand for a furnace.
fn stand(rt: &impl Print, b: Board, table: &[i16], furnace: u8) -> io::Result<()> {
    calls::settle(rt, b, table, furnace, 4, 8, 8)?;
    calls::ask(rt, b, table, furnace, 1)?;
    calls::ask(rt, b, table, furnace, 2)?;
    calls::explain(rt, b, table, furnace, 2)?;
    calls::ground(rt, b, table, furnace, 2, 8)
}

// 1 held by both furnaces and withdrawn by one: for the other it still stands, and so does 2.
fn withdrawn_by(rt: &impl Print, table: &[i16], one: u8, other: u8) -> io::Result<()> {
    let a = boards::none();
    printing::on(rt, a, 45)?;
    let b = calls::hold(rt, a, table, one, 1)?;
    let c = calls::hold(rt, b, table, other, 1)?;
    let d = calls::withdraw(rt, c, table, one, 1)?;
    stand(rt, d, table, one)?;
    stand(rt, d, table, other)?;
    printing::end(rt)
}

// Hold and withdraw, each by a furnace that held the literal before and by one that did not: 10 and 11 go by the furnace's own premises.
fn own_premises(rt: &impl Print, table: &[i16]) -> io::Result<()> {
    let a = boards::none();
    printing::on(rt, a, 45)?;
    let b = calls::hold(rt, a, table, 1, 1)?;
    let c = calls::hold(rt, b, table, 1, 1)?;
    let d = calls::withdraw(rt, c, table, 2, 1)?;
    let e = calls::hold(rt, d, table, 2, 1)?;
    let f = calls::hold(rt, e, table, 2, 1)?;
    let g = calls::withdraw(rt, f, table, 1, 1)?;
    let h = calls::withdraw(rt, g, table, 1, 1)?;
    calls::withdraw(rt, h, table, 2, 1)?;
    printing::end(rt)
}

// Explain and ground for both furnaces.
fn explained(rt: &impl Print, b: Board, l: i16) -> io::Result<()> {
    let table = boards::rows();
    printing::on(rt, b, 45)?;
    calls::explain(rt, b, &table, 1, l)?;
    calls::explain(rt, b, &table, 2, l)?;
    calls::ground(rt, b, &table, 1, l, 8)?;
    calls::ground(rt, b, &table, 2, l, 8)?;
    printing::end(rt)
}

// 12 for one furnace only: 2 derived for furnace 1 and not for furnace 2, the other way round, and derived for furnace 1 but held by furnace 2.
fn reasons(rt: &impl Print) -> io::Result<()> {
    explained(rt, with(boards::none(), 0), 2)?;
    explained(rt, with_second(boards::none(), 0), 2)?;
    explained(rt, with_second(with(boards::none(), 0), 2), 2)
}

// Every call that names a furnace, with so many places lent where one writes.
fn every(rt: &impl Print, b: Board, furnace: u8, l: i16, places: usize) -> io::Result<()>
    requires { places ≤ 410 }
{
    let table = boards::rows();
    printing::on(rt, b, 45)?;
    named::changing(rt, b, &table, furnace, l)?;
    named::reading(rt, b, &table, furnace, l, places)?;
    printing::end(rt)
}

// A literal that is derived, one that is held, 0 and one more than S, and tables too short: for a furnace of another number 16 is ahead of all.
fn numbered(rt: &impl Print, furnace: u8) -> io::Result<()> {
    let b = with_second(boards::both(), 0);
    every(rt, b, furnace, 2, 8)?;
    every(rt, b, furnace, 1, 8)?;
    every(rt, b, furnace, 0, 8)?;
    every(rt, b, furnace, 5, 8)?;
    every(rt, b, furnace, 2, 7)?;
    every(rt, b, furnace, 0, 0)
}

// 1 is ahead of 16. A premise beyond S is 1 at the calls of both furnaces, whichever of them holds it: `faults` has the calls of furnace 1.
fn bad_board_first(rt: &impl Print) -> io::Result<()> {
    every(rt, boards::blank(0, 2, 2), 3, 2, 8)?;
    every(rt, boards::blank(4, 2, 32768), 3, 2, 8)?;
    every(rt, with(boards::both(), 8), 3, 2, 8)?;
    every(rt, with_second(boards::both(), 8), 3, 0, 7)?;
    every(rt, with(boards::both(), 8), 2, 2, 8)?;
    every(rt, with_second(boards::both(), 8), 2, 2, 8)
}

// Settle, ask and blame for both furnaces.
fn answers(rt: &impl Print, b: Board) -> io::Result<()> {
    let table = boards::rows();
    printing::on(rt, b, 45)?;
    calls::settle(rt, b, &table, 1, 4, 8, 8)?;
    calls::settle(rt, b, &table, 2, 4, 8, 8)?;
    calls::ask(rt, b, &table, 1, 2)?;
    calls::ask(rt, b, &table, 2, 2)?;
    calls::blame(rt, b, &table, 1, 8)?;
    calls::blame(rt, b, &table, 2, 8)?;
    printing::end(rt)
}

// A conflict for furnace 1 alone and for furnace 2 alone; and none where 1, held by furnace 1, and -2, held by furnace 2, would be in conflict.
fn conflicts(rt: &impl Print) -> io::Result<()> {
    answers(rt, with_second(boards::clash(), 0))?;
    answers(rt, with_second(with_second(with(boards::none(), 0), 4), 5))?;
    answers(rt, with_second(with(boards::none(), 0), 3))
}

// The rule 2 implies 3, and one that no assignment satisfies, on a board with premises of both: both sets stay, and both furnaces go by the new row.
fn rule_keeps_both(rt: &impl Print) -> io::Result<()> {
    let given = boards::rows();
    let mut table = given;
    let b = with_second(with(boards::none(), 0), 2);
    printing::on(rt, b, 45)?;
    let c = calls::rule_in(rt, b, &given, &mut table, 45, b"\x14\x10\x02\x10\x03")?;
    calls::explain(rt, c, &table, 1, 4)?;
    calls::explain(rt, c, &table, 2, 4)?;
    let longer = table;
    calls::rule(rt, c, longer, 45, b"\x12\x10\x01\x11\x10\x01")?;
    printing::end(rt)
}

// After an open neither furnace holds anything.
fn open_empties_both(rt: &impl Print) -> io::Result<()> {
    let table = boards::rows();
    let opened = board::changes::open(4);
    let b = opened.board;
    printing::on(rt, b, 45)?;
    calls::withdraw(rt, b, &table, 1, 1)?;
    calls::withdraw(rt, b, &table, 2, 1)?;
    calls::settle(rt, b, &table, 1, 4, 8, 8)?;
    calls::settle(rt, b, &table, 2, 4, 8, 8)?;
    printing::end(rt)
}

pub fn run(rt: &impl Print) -> io::Result<()> {
    let table = boards::rows();
    withdrawn_by(rt, &table, 1, 2)?;
    withdrawn_by(rt, &table, 2, 1)?;
    own_premises(rt, &table)?;
    reasons(rt)?;
    numbered(rt, 2)?;
    numbered(rt, 0)?;
    numbered(rt, 3)?;
    numbered(rt, 255)?;
    bad_board_first(rt)?;
    conflicts(rt)?;
    rule_keeps_both(rt)?;
    open_empties_both(rt)
}
