// The numbers of rules: which rule each row is from, how many rules a board counts, and the last that has a number.

use crate::{named, opening};
use board::Board;
use report::boards::{GUARD, blank};
use report::{boards, printing};
use std::io;

// Adds to a new board of 4 symbols that 1 is the same as 2, whose two rows are both from rule 1; then this rule, and then that 2 implies 3. Holds 1,
// and asks why 2 and 3 stand.
fn between(rt: &impl Print, bytes: &[u8]) -> io::Result<()> {
    let new = blank(4, 0, 0);
    let empty = [GUARD; 45];
    let mut table = empty;
    printing::on(rt, new, 45)?;
    let one = calls::rule_in(rt, new, &empty, &mut table, 45, b"\x15\x10\x01\x10\x02")?;
    let before = table;
    let two = calls::rule_in(rt, one, &before, &mut table, 45, bytes)?;
    let after = table;
    let three = calls::rule_in(rt, two, &after, &mut table, 45, b"\x14\x10\x02\x10\x03")?;
    let held = calls::hold(rt, three, &table, 1, 1)?;
    calls::explain(rt, held, &table, 1, 2)?;
    calls::explain(rt, held, &table, 1, 3)?;
    printing::end(rt)
}

// 1 implies 1, which is always true, has a number and no row. Rules that are refused have none: 1 implies 5 of 4 symbols, 1 and not 1, and one of
// eight rows where three are free.
fn counted(rt: &impl Print) -> io::Result<()> {
    between(rt, b"\x14\x10\x01\x10\x01")?;
    between(rt, b"\x14\x10\x01\x10\x05")?;
    between(rt, b"\x12\x10\x01\x11\x10\x01")?;
    between(rt, b"\x15\x10\x01\x15\x10\x02\x15\x10\x03\x10\x04")
}

// The two rows with these numbers, where so many rules are counted: 1 and 3 held by furnace 1, and 1 and -2 by furnace 2. Explain alone answers by
// the numbers.
fn with_numbers(rt: &impl Print, a: i16, b: i16, rules: usize) -> io::Result<()> {
    let one = boards::with(boards::with(blank(4, 2, rules), 0), 4);
    let two = boards::with_second(boards::with_second(one, 0), 3);
    let table = boards::numbered(a, b);
    printing::on(rt, two, 45)?;
    printing::rows(rt, &table, 0, 2)?;
    named::reading(rt, two, &table, 1, 4, 8)?;
    named::reading(rt, two, &table, 2, -1, 8)?;
    printing::end(rt)
}

// Both rows may be from one rule; rules of no row may come ahead of both, between them and behind them; and the last number is good for both.
fn others(rt: &impl Print) -> io::Result<()> {
    with_numbers(rt, 1, 2, 2)?;
    with_numbers(rt, 1, 1, 1)?;
    with_numbers(rt, 2, 2, 2)?;
    with_numbers(rt, 1, 3, 5)?;
    with_numbers(rt, 256, 32767, 32767)?;
    with_numbers(rt, 32767, 32767, 32767)
}

// On a board that counts 32,767 rules: a rule of one row, one of none, one of nine symbols, one that no assignment satisfies, and a formula of no
// byte. The first two alone are refused with 9.
fn beyond(rt: &impl Print, full: Board, table: [i16; 45]) -> io::Result<()> {
    calls::rule(rt, full, table, 45, b"\x10\x01")?;
    calls::rule(rt, full, table, 45, b"\x14\x10\x01\x10\x01")?;
    calls::rule(
        rt,
        full,
        table,
        45,
        b"\x13\x10\x09\x13\x10\x08\x13\x10\x07\x13\x10\x06\x13\x10\x05\x13\x10\x04\x13\x10\x03\x13\x10\x02\x10\x01",
    )?;
    calls::rule(rt, full, table, 45, b"\x12\x10\x01\x11\x10\x01")?;
    calls::rule(rt, full, table, 45, b"")
}

// Adds the 32,767th rule to a board of 200 symbols and two rows, and then each of those; holds 1, and asks why 2 and 3 stand.
fn last(rt: &impl Print, bytes: &[u8]) -> io::Result<()> {
    let given = boards::rows();
    let mut table = given;
    let before = blank(200, 2, 32766);
    printing::on(rt, before, 45)?;
    let full = calls::rule_in(rt, before, &given, &mut table, 45, bytes)?;
    let longer = table;
    beyond(rt, full, longer)?;
    let held = calls::hold(rt, full, &table, 1, 1)?;
    calls::explain(rt, held, &table, 1, 2)?;
    calls::explain(rt, held, &table, 1, 3)?;
    printing::end(rt)
}

// Opens a board over a table whose rows have the number 2, and adds a rule. "every open, a refused one too, sets the count to 0": after a good one
// the rule is rule 1.
fn opened(rt: &impl Print, symbols: usize) -> io::Result<()> {
    let b = opening::open(rt, symbols)?;
    calls::rule(rt, b, boards::numbered(2, 2), 45, b"\x14\x10\x02\x10\x03")?;
    printing::end(rt)
}

pub fn run(rt: &impl Print) -> io::Result<()> {
    counted(rt)?;
    others(rt)?;
    last(rt, b"\x14\x10\x01\x10\x03")?;
    last(rt, b"\x14\x10\x01\x10\x01")?;
    opened(rt, 4)?;
    opened(rt, 201)
}
