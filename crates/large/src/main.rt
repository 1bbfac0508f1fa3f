// Runs the calls of `board` over a chain of 200 symbols and over full boards of 2,048 rows, and prints what each call answers.
#![tactic(auto)]

ghost use Rattle.std.specs.Prelude.{◌≤◌, length};

use board::Board;
use report::{boards, printing};
use std::io;

// Adds the rules that each symbol but the last implies the next.
fn chain(table: &mut [i16]) -> Board {
    let mut b = boards::blank(200, 0, 0);
    for i in 1..200 {
        let bytes: [u8; 5] = [0x14, 0x10, i, 0x10, i + 1];
        let told = board::rules::add_rule(b, table, &bytes);
        b = told.board;
    }
    b
}

// Settle, and explain and ground for one literal, and blame, for furnace 1.
fn show(rt: &impl Print, b: Board, table: &[i16], l: i16) -> io::Result<()> {
    printing::on(rt, b, table.len())?;
    calls::settle(rt, b, table, 1, 200, 400, 400)?;
    calls::explain(rt, b, table, 1, l)?;
    calls::ground(rt, b, table, 1, l, 400)?;
    calls::blame(rt, b, table, 1, 400)?;
    printing::end(rt)
}

fn signed(symbol: usize, positive: bool) -> i16
    requires { symbol ≤ 200 }
{
    let l = symbol as i16;
    if positive { l } else { -l }
}

// Row r is -a, b, c with a = 1 + 11r mod 186, b = a + 1 + r mod 11 and c = b + 1 + r mod 3, but -b stands for b in each third row
// and -c for c in each fifth. Each row is from a rule of its own, row r from rule r + 1.
fn fill(table: &mut [i16])
    requires { 18432 ≤ length table.old }
{
    for r in 0..2048 {
        let a = 1 + r * 11 % 186;
        let b = a + 1 + r % 11;
        let c = b + 1 + r % 3;
        let first = signed(a, false);
        let second = signed(b, r % 3 != 0);
        let third = signed(c, r % 5 != 0);
        let rule = (r + 1) as i16;
        table[9 * r..9 * r + 9].copy_from_slice(&[first, second, third, 0, 0, 0, 0, 0, rule]);
    }
}

// 200 symbols and so many rows, as many rules counted, with 1, 2, 3 and 4 held by furnace 1.
fn held(rows: usize) -> Board {
    let one = boards::with(boards::blank(200, rows, rows), 0);
    let two = boards::with(one, 2);
    boards::with(boards::with(two, 4), 6)
}

// Adds the rule 1 implies 200 with so many rows in use.
fn add(rt: &impl Print, table: &mut [i16], given: &[i16], rows: usize) -> io::Result<()>
    requires { 18441 ≤ length table.old }
{
    let b = held(rows);
    printing::on(rt, b, 18441)?;
    calls::rule_in(rt, b, given, table, 18441, b"\x14\x10\x01\x10\xc8")?;
    printing::end(rt)
}

// The table has room for 2,049 rows, of which 2,048 are lent.
fn main(rt: HostRuntime) -> io::Result<()> {
    let mut table = [boards::GUARD; 18441];
    let b = chain(&mut table);
    show(&rt, boards::with(b, 0), &table, 200)?;
    fill(&mut table);
    show(&rt, held(2048), &table, 193)?;
    let given = table;
    add(&rt, &mut table, &given, 2048)?;
    add(&rt, &mut table, &given, 2049)?;
    add(&rt, &mut table, &given, 2047)?;
    show(&rt, held(2048), &table, 200)
}
