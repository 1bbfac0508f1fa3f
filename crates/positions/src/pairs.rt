// Entering a pair table: the clauses of all positions of both variables, wholly or not at all.

ghost use Rattle.std.specs.Prelude.{◌≡◌, true, suc, ◌+◌, ◌*◌, ◌≤◌, length};
ghost use Rattle.positions.specs.Positions.{suits};
ghost use Rattle.literals.specs.Row.{most_rules, width};
ghost use Rattle.implicates.specs.Appending.{appended};
ghost use Rattle.board.specs.Faults.{good_board, first_fault};
ghost use Rattle.positions.specs.Entering.{pair_table, pairs_of, own_faults, entered, entered_table};
ghost use Rattle.positions.specs.Writing.{each_a_rule, both_rows};

use crate::answering::done;
use crate::rows::{allows_some, append_side, seen_from};
use crate::testing::{on_board, overlap};
use crate::variables::has_count;
use board::rules::{Addition, NO_PLACE, refused};
use board::testing::good;
use board::{Board, Outcome};
use literals::MOST_RULES;
use literals::refusal::Refusal;

// What is asked of two variables and a table between them: 2, 19 and 8.
fn judge(
    symbols: usize,
    first: usize,
    count: usize,
    other: usize,
    others: usize,
    pairs: usize,
) -> Outcome
    requires { symbols ≤ 200 }
    ensures { result ≡ first_fault (own_faults symbols (pairs_of first count other others pairs)) }
{
    if !on_board(first, count, symbols) {
        return Err(Refusal::BadLiteral);
    }
    if !on_board(other, others, symbols) {
        return Err(Refusal::BadLiteral);
    }
    if !has_count(count) {
        return Err(Refusal::BadPositions);
    }
    if !has_count(others) {
        return Err(Refusal::BadPositions);
    }
    if overlap(first, count, other, others) {
        return Err(Refusal::BadPositions);
    }
    if !allows_some(seen_from(first, count, other, others, pairs, false)) {
        return Err(Refusal::NoAssignment);
    }
    Ok(())
}

// Appends the clauses of the first variable's positions and then of the second's, from row `rows` on; `rules` come before them.
fn append_both(
    table: &mut [i16],
    rows: usize,
    rules: usize,
    first: usize,
    count: usize,
    other: usize,
    others: usize,
    pairs: usize,
)
    requires le_first { (1 ≤ first) × (1 ≤ other) × (count ≤ 7) × (others ≤ 7) × (first + count ≤ 201) × (other + others ≤ 201) }
    requires others_bound { (rules + (count + others) ≤ most_rules) × (width * (rows + (count + others)) ≤ length table.old) }
    ensures { table.new ≡ appended table.old rows
        (each_a_rule (suc rules) (both_rows (pair_table first count other others pairs))) }
{
    append_side(
        table,
        rows,
        rules,
        seen_from(first, count, other, others, pairs, false),
    );
    append_side(
        table,
        rows + count,
        rules + count,
        seen_from(other, others, first, count, pairs, true),
    );
}

// Enters a table that the board takes, if all of its clauses have a row and a number.
fn enter(
    board: Board,
    table: &mut [i16],
    first: usize,
    count: usize,
    other: usize,
    others: usize,
    pairs: usize,
) -> Addition
    requires { (good_board table.old board ≡ true) × (suits board.symbols (pairs_of first count other others pairs) ≡ true) }
    ensures value { result ≡ entered table.old board (pairs_of first count other others pairs) }
    ensures table_after { table.new ≡ entered_table table.old board (pairs_of first count other others pairs) }
{
    let clauses = count + others;
    if literals::rows_lent(table) - board.rows < clauses {
        return refused(board, Refusal::TableFull, NO_PLACE);
    }
    if MOST_RULES - board.rules < clauses {
        return refused(board, Refusal::TableFull, NO_PLACE);
    }
    append_both(
        table,
        board.rows,
        board.rules,
        first,
        count,
        other,
        others,
        pairs,
    );
    done(board, clauses, clauses)
}

// Enters a pair table between the variable of `count` symbols from `first` on and that of `others` from `other` on.
pub fn add_pairs(
    board: Board,
    table: &mut [i16],
    first: usize,
    count: usize,
    other: usize,
    others: usize,
    pairs: usize,
) -> Addition
    ensures value { result ≡ entered table.old board (pairs_of first count other others pairs) }
    ensures table_after { table.new ≡ entered_table table.old board (pairs_of first count other others pairs) }
{
    if !good(board, table) {
        return refused(board, Refusal::BadBoard, NO_PLACE);
    }
    match judge(board.symbols, first, count, other, others, pairs) {
        Err(why) => refused(board, why, NO_PLACE),
        Ok(()) => enter(board, table, first, count, other, others, pairs),
    }
}
