// The boards that are tried: each shows the sets of candidates that carry a literal, with so many places lent for them.

ghost use Rattle.std.specs.Prelude.{◌≤◌};

use crate::telling::show;
use board::Board;
use report::boards;
use report::boards::{GUARD, blank};
use std::io;

// Two ways to 4: 3 alone, or 1 and 2.
fn two_ways() -> [i16; 45] {
    boards::table(&[-3, 4, 0, 0, 0, 0, 0, 0, 1, -1, -2, 4, 0, 0, 0, 0, 0, 2])
}

// With these rows, a board of any kind, and so many numbers of the table lent.
pub fn on(
    rt: &impl Print,
    b: Board,
    lent: usize,
    candidates: &[i16],
    l: i16,
    room: usize,
) -> io::Result<()>
    requires { (lent ≤ 45) × (room ≤ 20) }
{
    show(rt, b, two_ways(), lent, candidates, l, room)
}

// With these rows, their own board.
pub fn ways(rt: &impl Print, candidates: &[i16], l: i16, room: usize) -> io::Result<()>
    requires { room ≤ 20 }
{
    on(rt, blank(4, 2, 2), 45, candidates, l, room)
}

// Two pairs for 5: 1 and 4, or 2 and 3.
pub fn pairs(rt: &impl Print, candidates: &[i16], l: i16, room: usize) -> io::Result<()>
    requires { room ≤ 20 }
{
    let table = boards::table(&[-1, -4, 5, 0, 0, 0, 0, 0, 1, -2, -3, 5, 0, 0, 0, 0, 0, 2]);
    show(rt, blank(5, 2, 2), table, 45, candidates, l, room)
}

// 7 by 1 or by 2, 8 by 3 or by 4, and 9 by 7 and 8.
pub fn many(rt: &impl Print, candidates: &[i16], l: i16, room: usize) -> io::Result<()>
    requires { room ≤ 20 }
{
    let three = boards::three_rows(
        [-1, 7, 0, 0, 0, 0, 0, 0, 1],
        [-2, 7, 0, 0, 0, 0, 0, 0, 2],
        [-3, 8, 0, 0, 0, 0, 0, 0, 3],
    );
    let four = boards::with_row(three, 3, [-4, 8, 0, 0, 0, 0, 0, 0, 4]);
    let five = boards::with_row(four, 4, [-7, -8, 9, 0, 0, 0, 0, 0, 5]);
    show(rt, blank(9, 5, 5), five, 45, candidates, l, room)
}

// 2 by 1, and by -1.
pub fn either(rt: &impl Print, candidates: &[i16], l: i16, room: usize) -> io::Result<()>
    requires { room ≤ 20 }
{
    let table = boards::table(&[-1, 2, 0, 0, 0, 0, 0, 0, 1, 1, 2, 0, 0, 0, 0, 0, 0, 2]);
    show(rt, blank(2, 2, 2), table, 45, candidates, l, room)
}

// 2 by 1, 3 by -1, and 4 by 2 and 3.
pub fn both(rt: &impl Print, candidates: &[i16], l: i16, room: usize) -> io::Result<()>
    requires { room ≤ 20 }
{
    let table = boards::three_rows(
        [-1, 2, 0, 0, 0, 0, 0, 0, 1],
        [1, 3, 0, 0, 0, 0, 0, 0, 2],
        [-2, -3, 4, 0, 0, 0, 0, 0, 3],
    );
    show(rt, blank(4, 3, 3), table, 45, candidates, l, room)
}

// 2 by itself, and 3 by 2.
pub fn certain(rt: &impl Print, candidates: &[i16], l: i16, room: usize) -> io::Result<()>
    requires { room ≤ 20 }
{
    let table = boards::table(&[2, 0, 0, 0, 0, 0, 0, 0, 1, -2, 3, 0, 0, 0, 0, 0, 0, 2]);
    show(rt, blank(3, 2, 2), table, 45, candidates, l, room)
}

// Not both 1 and 2; 4 by 1 and 2, and by 3.
pub fn never_both(rt: &impl Print, candidates: &[i16], l: i16, room: usize) -> io::Result<()>
    requires { room ≤ 20 }
{
    let table = boards::three_rows(
        [-1, -2, 0, 0, 0, 0, 0, 0, 1],
        [-1, -2, 4, 0, 0, 0, 0, 0, 2],
        [-3, 4, 0, 0, 0, 0, 0, 0, 3],
    );
    show(rt, blank(4, 3, 3), table, 45, candidates, l, room)
}

// 4 and -4 by 1.
pub fn torn(rt: &impl Print, candidates: &[i16], l: i16, room: usize) -> io::Result<()>
    requires { room ≤ 20 }
{
    let table = boards::table(&[-1, 4, 0, 0, 0, 0, 0, 0, 1, -1, -4, 0, 0, 0, 0, 0, 0, 2]);
    show(rt, blank(4, 2, 2), table, 45, candidates, l, room)
}

// 1, -1 and 2, each by itself.
pub fn clash(rt: &impl Print, candidates: &[i16], l: i16, room: usize) -> io::Result<()>
    requires { room ≤ 20 }
{
    let table = boards::three_rows(
        [1, 0, 0, 0, 0, 0, 0, 0, 1],
        [-1, 0, 0, 0, 0, 0, 0, 0, 2],
        [2, 0, 0, 0, 0, 0, 0, 0, 3],
    );
    show(rt, blank(3, 3, 3), table, 45, candidates, l, room)
}

// 13 by 1 to 7, and 14 by 8 to 13.
pub fn long(rt: &impl Print, candidates: &[i16], l: i16, room: usize) -> io::Result<()>
    requires { room ≤ 20 }
{
    let table = boards::three_rows(
        [-1, -2, -3, -4, -5, -6, -7, 13, 1],
        [-8, -9, -10, -11, -12, -13, 14, 0, 2],
        [GUARD; 9],
    );
    show(rt, blank(14, 2, 2), table, 45, candidates, l, room)
}

// 200 by 199, of 200 symbols.
pub fn last(rt: &impl Print, candidates: &[i16], l: i16, room: usize) -> io::Result<()>
    requires { room ≤ 20 }
{
    let table = boards::table(&[-199, 200, 0, 0, 0, 0, 0, 0, 1]);
    show(rt, blank(200, 1, 1), table, 45, candidates, l, room)
}
