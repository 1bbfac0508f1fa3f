// Boards and tables to start from.

ghost use Rattle.std.specs.Prelude.{◌≤◌, length};

use board::Board;

// What stands in a table beyond its rows in use: no sound row.
pub const GUARD: i16 = 77;

// A board with so many rows in use and so many rules counted, and nothing held by either furnace.
pub fn blank(symbols: usize, rows: usize, rules: usize) -> Board {
    Board {
        symbols,
        rows,
        rules,
        first: [false; 400],
        second: [false; 400],
    }
}

// The board with a premise of furnace 1 more, at place p.
pub fn with(board: Board, p: usize) -> Board {
    let mut next = board;
    if p < 400 {
        next.first[p] = true;
    }
    next
}

// The board with a premise of furnace 2 more, at place p.
pub fn with_second(board: Board, p: usize) -> Board {
    let mut next = board;
    if p < 400 {
        next.second[p] = true;
    }
    next
}

// A table of five rows that begins with these numbers.
pub fn table(front: &[i16]) -> [i16; 45]
    requires { length front.now ≤ 45 }
{
    let mut t = [GUARD; 45];
    t[..front.len()].copy_from_slice(front);
    t
}

// The table with another row r.
pub fn with_row(table: [i16; 45], r: usize, row: [i16; 9]) -> [i16; 45]
    requires { r ≤ 4 }
{
    let mut t = table;
    t[9 * r..9 * r + 9].copy_from_slice(&row);
    t
}

// A table that begins with these three rows.
pub fn three_rows(first: [i16; 9], second: [i16; 9], third: [i16; 9]) -> [i16; 45] {
    let one = with_row([GUARD; 45], 0, first);
    let two = with_row(one, 1, second);
    with_row(two, 2, third)
}

// The two rows of document 01's journal, 1 implies 2, and 2 and 3 imply 4, as of the rules with these numbers.
pub fn numbered(a: i16, b: i16) -> [i16; 45] {
    table(&[-1, 2, 0, 0, 0, 0, 0, 0, a, -2, -3, 4, 0, 0, 0, 0, 0, b])
}

// The same as the journal has them.
pub fn rows() -> [i16; 45] {
    numbered(1, 2)
}

// Their board with nothing held, and with 1 and 3, and 3 and -3, held by furnace 1.
pub fn none() -> Board {
    blank(4, 2, 2)
}

pub fn both() -> Board {
    with(with(none(), 0), 4)
}

pub fn clash() -> Board {
    with(with(none(), 4), 5)
}
