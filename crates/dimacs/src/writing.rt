// The rows in use as DIMACS text, in a buffer that is lent: first how long each piece is, then the pieces.
// No heap: what is written goes into what is lent, and the place after it is told.

ghost use Rattle.std.specs.Prelude.{◌≡◌, leb, ◌+◌, ◌*◌, ◌<◌, ◌≤◌, length, Err};
ghost use Rattle.literals.specs.Row.{width};
ghost use Rattle.spelling.specs.Text.{literal, natural, Put};
ghost use Rattle.dimacs.specs.Writing.{clause_at, clause_line, clause_lines, clauses_at, counts_line, text_of, write_answer, write_bytes};

use board::testing::good;
use board::{Board, Outcome};
use literals::WIDTH;
use literals::refusal::Refusal;
use spelling::{put_literal, put_natural, put_word};

// What writing answers: how many bytes were written, 0 where it was refused: `RefusedHandsBack` in `promises` says it of this number.
#[derive(Clone, Copy)]
pub struct Writing {
    pub outcome: Outcome,
    pub bytes: usize,
}

fn refused(why: Refusal) -> Writing
    ensures { result ≡ record { outcome = Err why; bytes = 0 } }
{
    Writing {
        outcome: Err(why),
        bytes: 0,
    }
}

// How many digits a number has.
fn natural_size(n: usize) -> usize
    ensures { result ≡ length (natural n) }
{
    let mut size = 1;
    let mut left = n;
    // A while: it goes by the number that is left, a digit fewer at each turn.
    while 10 <= left {
        left = left / 10;
        size += 1;
    }
    size
}

// How many bytes a literal takes.
fn literal_size(l: i16) -> usize
    ensures { result ≡ length (literal l) }
{
    let n = literals::symbol(l);
    let size = natural_size(n);
    if l < 0 {
        return size + 1;
    }
    size
}

// How many bytes the line of a row's literals takes. The bound is for the sum over the rows in use.
fn line_size(part: &[i16]) -> usize
    requires { length part.now ≤ 8 }
    ensures { (result ≡ length (clause_line part.now)) × (result ≤ 58) }
{
    let mut size = 2;
    for l in part {
        size += literal_size(*l) + 1;
    }
    size
}

// How many bytes the line of a row takes.
fn row_size(table: &[i16], row: usize) -> usize
    requires { (row < 2048) × (width * (row + 1) ≤ length table.now) }
    ensures { (result ≡ length (clause_line (clause_at table.now row))) × (result ≤ 58) }
{
    let at = WIDTH * row;
    let n = literals::literal_count(table, at);
    line_size(&table[at..at + n])
}

// How many bytes the text of the rows in use takes.
fn text_size(table: &[i16], used: usize, symbols: usize) -> usize
    requires { (used ≤ 2048) × (width * used ≤ length table.now) }
    ensures { result ≡ length (text_of symbols (clauses_at used table.now)) }
{
    let mut size = 8 + natural_size(symbols) + natural_size(used);
    for row in 0..used {
        size += row_size(table, row);
    }
    size
}

// Whether so many bytes hold the text. It is measured only where they are fewer than the longest text of so many rows.
fn fits(room: usize, table: &[i16], used: usize, symbols: usize) -> bool
    requires used_bound { (used ≤ 2048) × (width * used ≤ length table.now) }
    requires table_len_bound { length (text_of symbols (clauses_at used table.now)) ≤ 15 + 42 * used }
    ensures { result ≡ leb (length (text_of symbols (clauses_at used table.now))) room }
{
    15 + 42 * used <= room || text_size(table, used, symbols) <= room
}

// Writes a row's literals as a line: "single blanks, 0 last", and the line feed.
fn put_line(out: &mut [u8], at: usize, part: &[i16]) -> usize
    requires { at + length (clause_line part.now) ≤ length out.old }
    ensures { Put out.old out.new at (clause_line part.now) result }
{
    let mut next = at;
    for l in part {
        next = put_literal(out, next, *l);
        out[next] = b' ';
        next += 1;
    }
    out[next] = b'0';
    out[next + 1] = b'\n';
    next + 2
}

// Writes a row as a line.
fn put_row(out: &mut [u8], at: usize, table: &[i16], row: usize) -> usize
    requires row_bound { (row < 2048) × (width * (row + 1) ≤ length table.now) }
    requires row_in_bounds { at + length (clause_line (clause_at table.now row)) ≤ length out.old }
    ensures { Put out.old out.new at (clause_line (clause_at table.now row)) result }
{
    let from = WIDTH * row;
    let n = literals::literal_count(table, from);
    put_line(out, at, &table[from..from + n])
}

// Writes the rows in use: "one line a row in row order".
fn put_rows(out: &mut [u8], at: usize, table: &[i16], used: usize) -> usize
    requires used_bound { (used ≤ 2048) × (width * used ≤ length table.now) }
    requires table_in_bounds { at + length (clause_lines (clauses_at used table.now)) ≤ length out.old }
    ensures { Put out.old out.new at (clause_lines (clauses_at used table.now)) result }
{
    let mut next = at;
    for row in 0..used {
        next = put_row(out, next, table, row);
    }
    next
}

// Writes the header's line: `p cnf`, "S and the count of rows".
fn put_counts(out: &mut [u8], symbols: usize, count: usize) -> usize
    requires { length (counts_line symbols count) ≤ length out.old }
    ensures { Put out.old out.new 0 (counts_line symbols count) result }
{
    let first = put_word(out, 0, b"p cnf ");
    let second = put_natural(out, first, symbols);
    out[second] = b' ';
    let third = put_natural(out, second + 1, count);
    out[third] = b'\n';
    third + 1
}

// Writes the header and the rows in use.
fn put_text(out: &mut [u8], table: &[i16], used: usize, symbols: usize) -> usize
    requires used_bound { (used ≤ 2048) × (width * used ≤ length table.now) }
    requires table_in_bounds { length (text_of symbols (clauses_at used table.now)) ≤ length out.old }
    ensures { Put out.old out.new 0 (text_of symbols (clauses_at used table.now)) result }
{
    let next = put_counts(out, symbols, used);
    put_rows(out, next, table, used)
}

// Writes the rows in use as DIMACS text, and nothing where it does not fit.
pub fn write(board: Board, table: &[i16], out: &mut [u8]) -> Writing
    ensures value { result ≡ write_answer table.now board out.old }
    ensures out_after { out.new ≡ write_bytes table.now board out.old }
{
    if !good(board, table) {
        return refused(Refusal::BadBoard);
    }
    if !fits(out.len(), table, board.rows, board.symbols) {
        return refused(Refusal::TableTooShort);
    }
    Writing {
        outcome: Ok(()),
        bytes: put_text(out, table, board.rows, board.symbols),
    }
}
