// The rows of the table, in words and as DIMACS text.

ghost use Rattle.std.specs.Prelude.{◌≡◌, ◌+◌, ◌*◌, ◌≤◌, length};
ghost use Rattle.literals.specs.Row.{width};
ghost use Rattle.names.specs.Names.{table_length};

use board::testing::good;
use literals::WIDTH;
use literals::refusal::Refusal;
use orders::Desk;
use orders::order::Order;
use saying::pieces::{say, say_literal, say_number};
use saying::showing::refuse;
use std::io;

// Literals with bars between.
fn say_alternatives(rt: &impl Print, names: &[u8], part: &[i16]) -> io::Result<()>
    requires { length names.now ≡ table_length }
{
    for (k, l) in part.iter().enumerate() {
        if 0 < k {
            say(rt, b" | ")?;
        }
        say_literal(rt, names, *l)?;
    }
    say(rt, b"\n")
}

// A row of the table.
fn say_row(rt: &impl Print, table: &[i16], names: &[u8], row: usize) -> io::Result<()>
    requires { (length names.now ≡ table_length) × (width * (row + 1) ≤ length table.now) }
{
    let at = WIDTH * row;
    let n = literals::literal_count(table, at);
    say(rt, b"  row ")?;
    say_number(rt, row)?;
    say(rt, b", rule ")?;
    say_number(rt, literals::rule_at(table, row))?;
    say(rt, b": ")?;
    say_alternatives(rt, names, &table[at..at + n])
}

// So many rows.
fn say_rows(rt: &impl Print, table: &[i16], names: &[u8], rows: usize) -> io::Result<()>
    requires { (length names.now ≡ table_length) × (width * rows ≤ length table.now) }
{
    if rows == 0 {
        return say(rt, b"  no row\n");
    }
    for row in 0..rows {
        say_row(rt, table, names, row)?;
    }
    Ok(())
}

// The rows in use.
pub fn rows(rt: &impl Print, desk: Desk, table: &[i16], names: &[u8]) -> io::Result<()>
    requires { length names.now ≡ table_length }
{
    let board = desk.board;
    if !good(board, table) {
        return refuse(rt, Order::Rows, Refusal::BadBoard);
    }
    say_rows(rt, table, names, board.rows)
}

// The rows in use as DIMACS text: no text of 2,048 rows has more bytes than there is room for.
pub fn cnf(rt: &impl Print, desk: Desk, table: &[i16]) -> io::Result<()> {
    let board = desk.board;
    let mut out = [0u8; 86031];
    let writing = dimacs::writing::write(board, table, &mut out);
    let outcome = writing.outcome;
    match outcome {
        Err(why) => refuse(rt, Order::Cnf, why),
        Ok(()) => {
            let n = writing.bytes;
            say(rt, &out[..n])
        }
    }
}
