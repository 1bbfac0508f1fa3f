// The calls that write: tables a place too short, tables of the stated length, and longer ones.

ghost use Rattle.std.specs.Prelude.{◌≤◌};

use board::Board;
use report::boards::with;
use report::{boards, printing};
use std::io;

fn settle(rt: &impl Print, b: Board, labels: usize, ranks: usize, supports: usize) -> io::Result<()>
    requires { (labels ≤ 410) × (ranks ≤ 410) × (supports ≤ 410) }
{
    let table = boards::rows();
    printing::on(rt, b, 45)?;
    calls::settle(rt, b, &table, 1, labels, ranks, supports)?;
    printing::end(rt)
}

// Ground the literal, and blame.
fn mark(rt: &impl Print, b: Board, l: i16, places: usize) -> io::Result<()>
    requires { places ≤ 410 }
{
    let table = boards::rows();
    printing::on(rt, b, 45)?;
    calls::ground(rt, b, &table, 1, l, places)?;
    calls::blame(rt, b, &table, 1, places)?;
    printing::end(rt)
}

fn settles(rt: &impl Print) -> io::Result<()> {
    let b = boards::both();
    settle(rt, b, 3, 8, 8)?;
    settle(rt, b, 4, 7, 8)?;
    settle(rt, b, 4, 8, 7)?;
    settle(rt, b, 4, 8, 8)?;
    settle(rt, b, 410, 410, 410)?;
    settle(rt, boards::none(), 4, 8, 8)?;
    settle(rt, boards::clash(), 4, 8, 8)?;
    settle(rt, with(boards::clash(), 0), 4, 8, 8)
}

// A literal that stands, one that does not, and 0; then conflicts of 3 with -3 and of 1 with -2. Of both, that of 3 is blamed, which is not the
// lowest symbol but the first in conflict; of 3 and 4, each held both ways, the lower one.
fn marks(rt: &impl Print) -> io::Result<()> {
    let b = boards::both();
    mark(rt, b, 4, 7)?;
    mark(rt, b, -4, 7)?;
    mark(rt, b, 0, 7)?;
    mark(rt, b, 4, 8)?;
    mark(rt, b, 4, 410)?;
    mark(rt, boards::clash(), -3, 7)?;
    mark(rt, boards::clash(), -3, 8)?;
    mark(rt, with(with(boards::none(), 0), 3), -1, 410)?;
    mark(rt, with(with(boards::clash(), 0), 3), -1, 8)?;
    mark(rt, with(with(boards::clash(), 6), 7), -4, 8)
}

// Rows 2 to 3, 1 to 3, 1 to 2. Support is the lowest row that gives the rank, not the lowest that ever fires.
fn supports(rt: &impl Print) -> io::Result<()> {
    let table = boards::three_rows(
        [-2, 3, 0, 0, 0, 0, 0, 0, 1],
        [-1, 3, 0, 0, 0, 0, 0, 0, 2],
        [-1, 2, 0, 0, 0, 0, 0, 0, 3],
    );
    let b = with(boards::blank(3, 3, 3), 0);
    printing::on(rt, b, 45)?;
    calls::settle(rt, b, &table, 1, 3, 6, 6)?;
    calls::settle(rt, with(b, 2), &table, 1, 3, 6, 6)?;
    printing::end(rt)
}

pub fn run(rt: &impl Print) -> io::Result<()> {
    settles(rt)?;
    marks(rt)?;
    supports(rt)
}
