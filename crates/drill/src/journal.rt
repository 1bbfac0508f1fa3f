// The board of document 01's journal, made by the calls.

use board::Board;
use report::boards::GUARD;
use report::printing;
use std::io;

// What its fifth board gives for literal 4, and its tenth, where 1 was withdrawn and -3 is held.
fn answers(rt: &impl Print, fifth: Board, table: &[i16]) -> io::Result<()> {
    calls::settle(rt, fifth, table, 1, 4, 8, 8)?;
    calls::ask(rt, fifth, table, 1, 4)?;
    calls::explain(rt, fifth, table, 1, 4)?;
    calls::ground(rt, fifth, table, 1, 4, 8)?;
    let eighth = calls::withdraw(rt, fifth, table, 1, 1)?;
    calls::ask(rt, eighth, table, 1, 4)?;
    let tenth = calls::hold(rt, eighth, table, 1, -3)?;
    calls::ask(rt, tenth, table, 1, 4)?;
    calls::blame(rt, tenth, table, 1, 8)
}

pub fn run(rt: &impl Print) -> io::Result<()> {
    let mut table = [GUARD; 45];
    let opened = board::changes::open(4);
    let first = opened.board;
    printing::on(rt, first, 45)?;
    let empty = table;
    let second = calls::rule_in(rt, first, &empty, &mut table, 45, b"\x14\x10\x01\x10\x02")?;
    let one = table;
    let third = calls::rule_in(
        rt,
        second,
        &one,
        &mut table,
        45,
        b"\x14\x12\x10\x02\x10\x03\x10\x04",
    )?;
    let fourth = calls::hold(rt, third, &table, 1, 1)?;
    let fifth = calls::hold(rt, fourth, &table, 1, 3)?;
    answers(rt, fifth, &table)?;
    printing::end(rt)
}
