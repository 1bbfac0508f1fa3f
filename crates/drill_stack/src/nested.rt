// Nested tries by furnace 1, and a rule that is added in between. "After a pop the labels are those of the premises still held and the rules then in
// the table."

use crate::desks::{Desk, bare};
use crate::printed;
use crate::tries::{labels, pop, push, withdraw};
use report::boards::{GUARD, blank};
use report::printing;
use std::io;

// 1 is tried; 3 is held already, which no try was; and on top -2, which 1 speaks against.
fn tried(rt: &impl Print, d: Desk, table: &[i16]) -> io::Result<Desk> {
    let one = push(rt, d, table, 1, 1)?;
    let same = push(rt, one, table, 1, 3)?;
    push(rt, same, table, 1, -2)
}

// "A stacked premise can't be withdrawn except by pop." Then both tries are taken back; 3 is still held, with nothing left to pop, and is withdrawn.
fn taken_back(rt: &impl Print, d: Desk, table: &[i16]) -> io::Result<()> {
    let same = withdraw(rt, d, table, 1, -2)?;
    let one = pop(rt, same, table, 1)?;
    let none = pop(rt, one, table, 1)?;
    let empty = pop(rt, none, table, 1)?;
    withdraw(rt, empty, table, 1, 3)?;
    Ok(())
}

// 1 implies 2, and 3 is held by hold; during both tries it is added that 2 and 3 imply 4.
pub fn run(rt: &impl Print) -> io::Result<()> {
    let unused = [GUARD; 45];
    let mut table = unused;
    let new = bare(blank(4, 0, 0));
    printed::on(rt, new, 45)?;
    let ruled = calls::rule_in(
        rt,
        new.board,
        &unused,
        &mut table,
        45,
        b"\x14\x10\x01\x10\x02",
    )?;
    let start = bare(calls::hold(rt, ruled, &table, 1, 3)?);
    labels(rt, start, &table, 1)?;
    printing::end(rt)?;
    let during = tried(rt, start, &table)?;
    printed::on(rt, during, 45)?;
    let given = table;
    let board = calls::rule_in(
        rt,
        during.board,
        &given,
        &mut table,
        45,
        b"\x14\x12\x10\x02\x10\x03\x10\x04",
    )?;
    let stacks = during.stacks;
    let more = Desk { board, stacks };
    labels(rt, more, &table, 1)?;
    printing::end(rt)?;
    taken_back(rt, more, &table)
}
