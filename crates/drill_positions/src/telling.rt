// The calls of `positions`, with what they answer printed. A table has room for 25 rows.

ghost use Rattle.std.specs.Prelude.{◌≤◌, length};

use board::Board;
use positions::pairs::add_pairs;
use positions::variables::add_positions;
use report::boards::GUARD;
use report::comparing::changed;
use report::printing;
use report::printing::{counted, number};
use std::io;

// Enters a variable into a table of which the first `lent` numbers are lent; `given` is a copy of it.
pub fn enter_variable(
    rt: &impl Print,
    before: Board,
    given: &[i16],
    table: &mut [i16],
    lent: usize,
    first: usize,
    count: usize,
) -> io::Result<Board>
    requires { lent ≤ length table.old }
{
    let told = add_positions(before, &mut table[..lent], first, count);
    counted(rt, b"; positions", first)?;
    number(rt, count)?;
    calls::added(rt, before, told, changed(given, table), table)?;
    Ok(told.board)
}

// The same of a pair table.
pub fn enter_pairs(
    rt: &impl Print,
    before: Board,
    given: &[i16],
    table: &mut [i16],
    lent: usize,
    first: usize,
    count: usize,
    other: usize,
    others: usize,
    pairs: usize,
) -> io::Result<Board>
    requires { lent ≤ length table.old }
{
    let told = add_pairs(
        before,
        &mut table[..lent],
        first,
        count,
        other,
        others,
        pairs,
    );
    counted(rt, b"; pairs", first)?;
    number(rt, count)?;
    counted(rt, b" with", other)?;
    number(rt, others)?;
    counted(rt, b" by", pairs)?;
    calls::added(rt, before, told, changed(given, table), table)?;
    Ok(told.board)
}

// A line: a board, and a variable that is entered into a table of no sound row.
pub fn variable(
    rt: &impl Print,
    b: Board,
    lent: usize,
    first: usize,
    count: usize,
) -> io::Result<()>
    requires { lent ≤ 225 }
{
    let given = [GUARD; 225];
    let mut table = given;
    printing::on(rt, b, lent)?;
    enter_variable(rt, b, &given, &mut table, lent, first, count)?;
    printing::end(rt)
}

// The same of a pair table.
pub fn pair_table(
    rt: &impl Print,
    b: Board,
    lent: usize,
    first: usize,
    count: usize,
    other: usize,
    others: usize,
    pairs: usize,
) -> io::Result<()>
    requires { lent ≤ 225 }
{
    let given = [GUARD; 225];
    let mut table = given;
    printing::on(rt, b, lent)?;
    enter_pairs(
        rt, b, &given, &mut table, lent, first, count, other, others, pairs,
    )?;
    printing::end(rt)
}
