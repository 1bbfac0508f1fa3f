// Reading a text onto a board: all of its clauses or none.

ghost use Rattle.std.specs.Prelude.{◌≡◌, true, ◌+◌, ◌≤◌, length, Ok, Err};
ghost use Rattle.literals.specs.Row.{most_rules};
ghost use Rattle.board.specs.Faults.{good_board};
ghost use Rattle.board.specs.Rules.{with_rules};
ghost use Rattle.dimacs.specs.Form.{counted, parse_text};
ghost use Rattle.dimacs.specs.Gathering.{clauses_from};
ghost use Rattle.dimacs.specs.Reading.{read_answer, read_table};

use crate::appending::append;
use crate::header::{header_in, header_place};
use crate::survey::survey_clauses;
use crate::words::line_end;
use board::testing::good;
use board::{Board, Outcome};
use literals::refusal::Refusal;

// What reading a text answers: how many clauses come before the first at fault, which are all of them where the reading is done; and how many
// rows were appended, 0 where it was refused. `ReadStops` and `RefusedHandsBack` in `promises` speak of both, and of the board, where it is refused.
#[derive(Clone, Copy)]
pub struct Reading {
    pub outcome: Outcome,
    pub clauses: usize,
    pub added: usize,
    pub board: Board,
}

// No twin of `board::rules::refused`: the structs differ in what they tell.
fn refused(board: Board, why: Refusal, clauses: usize) -> Reading
    ensures { result ≡ record { outcome = Err why; clauses = clauses; added = 0; board = board } }
{
    Reading {
        outcome: Err(why),
        clauses,
        added: 0,
        board,
    }
}

// The answer once so many clauses are added, with so many rows.
fn done(board: Board, clauses: usize, added: usize) -> Reading
    requires { (board.rows + added ≤ 2048) × (board.rules + clauses ≤ most_rules) }
    ensures { result ≡ record { outcome = Ok tt; clauses = clauses; added = added; board = with_rules board added clauses } }
{
    let mut next = board;
    next.rows = board.rows + added;
    next.rules = board.rules + clauses;
    Reading {
        outcome: Ok(()),
        clauses,
        added,
        board: next,
    }
}

// Adds the clauses that stand from a place on, behind a header of these counts.
fn add_clauses(
    board: Board,
    table: &mut [i16],
    text: &[u8],
    at: usize,
    variables: usize,
    clauses: usize,
) -> Reading
    requires board_value { (good_board table.old board ≡ true) × (at ≤ length text.now) }
    requires text_value { parse_text text.now ≡ counted clauses (clauses_from variables at text.now) }
    ensures value { result ≡ read_answer table.old board text.now }
    ensures table_after { table.new ≡ read_table table.old board text.now }
{
    let lent = literals::rows_lent(table);
    let found = survey_clauses(
        text,
        at,
        variables,
        clauses,
        board.symbols,
        board.rows,
        board.rules,
        lent,
    );
    let outcome = found.outcome;
    match outcome {
        Err(why) => refused(board, why, found.clauses),
        Ok(()) => {
            append(
                table,
                board.rows,
                board.rules,
                text,
                at,
                variables,
                board.symbols,
            );
            done(board, found.clauses, found.added)
        }
    }
}

// Reads a DIMACS text and adds each clause as one rule.
pub fn read(board: Board, table: &mut [i16], text: &[u8]) -> Reading
    ensures value { result ≡ read_answer table.old board text.now }
    ensures table_after { table.new ≡ read_table table.old board text.now }
{
    if !good(board, table) {
        return refused(board, Refusal::BadBoard, 0);
    }
    let start = header_place(text);
    let end = line_end(text, start);
    match header_in(&text[start..end]) {
        None => refused(board, Refusal::BadText, 0),
        Some(counts) => add_clauses(board, table, text, end, counts.variables, counts.clauses),
    }
}
