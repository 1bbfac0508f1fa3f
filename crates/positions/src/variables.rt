// Entering a position variable: a rule that exactly one of its symbols is true.

ghost use Rattle.std.specs.Prelude.{◌≡◌, true, false, ◌+◌, ◌≤◌, ◌^◌, length, replicate};
ghost use Rattle.meaning.specs.Tests.{from};
ghost use Rattle.positions.specs.Positions.{counted, suits};
ghost use Rattle.literals.specs.Row.{most_rules, rows_lent};
ghost use Rattle.implicates.specs.Appending.{rule_by, answer_of, table_of};
ghost use Rattle.board.specs.Faults.{good_board};
ghost use Rattle.positions.specs.Entering.{variable_of, entered, entered_table};
ghost use Rattle.positions.specs.Writing.{only_one};

use crate::answering::done;
use crate::testing::on_board;
use board::Board;
use board::rules::{Addition, NO_PLACE, refused};
use board::testing::good;
use literals::refusal::Refusal;

// Whether a variable may have so many positions: 2 to 7.
pub fn has_count(count: usize) -> bool
    ensures { result ≡ counted (record { first = 0; count = count }) }
{
    if count < 2 {
        return false;
    }
    count <= 7
}

// Writes into a truth table of nothing but false which assignments make exactly one symbol true: those whose number has one bit.
fn mark_single(truth: &mut [bool], n: usize)
    requires { (n ≤ 7) × (truth.old ≡ replicate (2 ^ n) false) }
    ensures { truth.new ≡ only_one n }
{
    // A while: the next number is twice this one.
    let mut number = 1;
    while number < truth.len() {
        truth[number] = true;
        number = 2 * number;
    }
}

// Writes the numbers of the symbols from `first` on.
fn list_symbols(names: &mut [u8], first: usize)
    requires { first + length names.old ≤ 201 }
    ensures { names.new ≡ from first (length names.old) }
{
    for (i, name) in names.iter_mut().enumerate() {
        *name = (first + i) as u8;
    }
}

// Appends the prime implicates of a variable's rule.
fn append(
    table: &mut [i16],
    rows: usize,
    rules: usize,
    first: usize,
    count: usize,
) -> Result<usize, Refusal>
    requires { (1 ≤ first) × (first + count ≤ 201) × (count ≤ 7) × (rows ≤ rows_lent table.old) × (rules ≤ most_rules) }
    ensures value { result ≡ answer_of (rule_by (from first count) (only_one count)) rows rules (rows_lent table.old) }
    ensures table_after { table.new ≡ table_of (rule_by (from first count) (only_one count)) rows rules (rows_lent table.old)
        table.old }
{
    let mut truth = [false; 128];
    let values = 1 << count;
    mark_single(&mut truth[..values], count);
    let mut names = [0u8; 7];
    list_symbols(&mut names[..count], first);
    let lent = literals::rows_lent(table);
    implicates::append_rule(table, rows, rules, lent, &names[..count], &truth[..values])
}

// Enters a variable that is one of the board's. It is never unsatisfiable: a valve has always a position to be in.
fn enter(board: Board, table: &mut [i16], first: usize, count: usize) -> Addition
    requires { (good_board table.old board ≡ true) × (suits board.symbols (variable_of first count) ≡ true) }
    ensures value { result ≡ entered table.old board (variable_of first count) }
    ensures table_after { table.new ≡ entered_table table.old board (variable_of first count) }
{
    match append(table, board.rows, board.rules, first, count) {
        Err(why) => refused(board, why, NO_PLACE),
        Ok(added) => done(board, added, 1),
    }
}

// Enters a position variable: `count` symbols from `first` on.
pub fn add_positions(board: Board, table: &mut [i16], first: usize, count: usize) -> Addition
    ensures value { result ≡ entered table.old board (variable_of first count) }
    ensures table_after { table.new ≡ entered_table table.old board (variable_of first count) }
{
    if !good(board, table) {
        return refused(board, Refusal::BadBoard, NO_PLACE);
    }
    if !on_board(first, count, board.symbols) {
        return refused(board, Refusal::BadLiteral, NO_PLACE);
    }
    if !has_count(count) {
        return refused(board, Refusal::BadPositions, NO_PLACE);
    }
    enter(board, table, first, count)
}
