// Conclusions that lean on each other: 1 implies 2, and 2 is the same as 3. On a try that is taken back both are gone.

use crate::desks::{Desk, bare};
use crate::printed;
use crate::tries::{labels, pop, push};
use report::boards::{GUARD, blank};
use report::printing;
use std::io;

// 1 is tried: 2 and 3 stand, and fall together. Then 3 is tried, and 1 on top of it: 2 stands by 1's row while 1 is held, and by 3's before it and
// after.
fn tried(rt: &impl Print, d: Desk, table: &[i16]) -> io::Result<()> {
    let one = push(rt, d, table, 1, 1)?;
    let none = pop(rt, one, table, 1)?;
    let three = push(rt, none, table, 1, 3)?;
    let both = push(rt, three, table, 1, 1)?;
    let again = pop(rt, both, table, 1)?;
    pop(rt, again, table, 1)?;
    Ok(())
}

pub fn run(rt: &impl Print) -> io::Result<()> {
    let unused = [GUARD; 45];
    let mut table = unused;
    let new = bare(blank(3, 0, 0));
    printed::on(rt, new, 45)?;
    let one = calls::rule_in(
        rt,
        new.board,
        &unused,
        &mut table,
        45,
        b"\x14\x10\x01\x10\x02",
    )?;
    let given = table;
    let two = calls::rule_in(rt, one, &given, &mut table, 45, b"\x15\x10\x02\x10\x03")?;
    let start = bare(two);
    labels(rt, start, &table, 1)?;
    printing::end(rt)?;
    tried(rt, start, &table)
}
