// A mark and its ground: 1 implies 3, 2 implies 4, 4 implies 3, and what furnace 2 is told of 3 before a premise is struck off and after.

use board::Board;
use report::boards::with_second;
use report::{boards, printing};
use std::io;

fn told(rt: &impl Print, b: Board, table: &[i16]) -> io::Result<()> {
    calls::settle(rt, b, table, 2, 4, 8, 8)?;
    calls::ask(rt, b, table, 2, 3)?;
    calls::explain(rt, b, table, 2, 3)?;
    calls::ground(rt, b, table, 2, 3, 8)
}

fn struck_off(rt: &impl Print, b: Board, table: &[i16], l: i16) -> io::Result<()> {
    printing::on(rt, b, 45)?;
    told(rt, b, table)?;
    let fewer = calls::withdraw(rt, b, table, 2, l)?;
    told(rt, fewer, table)?;
    printing::end(rt)
}

// 1 and 2 are held, and 3 stands on 1: 2 is struck off, which is outside its ground, and 1, which is its ground. Then with -3 held too, in
// conflict: 2, and -3, which ends the conflict.
pub fn run(rt: &impl Print) -> io::Result<()> {
    let table = boards::three_rows(
        [-1, 3, 0, 0, 0, 0, 0, 0, 1],
        [-2, 4, 0, 0, 0, 0, 0, 0, 2],
        [3, -4, 0, 0, 0, 0, 0, 0, 3],
    );
    let both = with_second(with_second(boards::blank(4, 3, 3), 0), 2);
    struck_off(rt, both, &table, 2)?;
    struck_off(rt, both, &table, 1)?;
    let clash = with_second(both, 5);
    struck_off(rt, clash, &table, 2)?;
    struck_off(rt, clash, &table, -3)
}
