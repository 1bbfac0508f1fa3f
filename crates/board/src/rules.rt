// Adding a rule: from its bytes to rows in the caller's table.

ghost use Rattle.std.specs.Prelude.{◌≡◌, true, ◌≤◌, length, Err};
ghost use Rattle.meaning.specs.Formulae.{symbols_of, rule_of};
ghost use Rattle.literals.specs.Row.{most_rules, rows_lent};
ghost use Rattle.formula.specs.Parse.{whole_of};
ghost use Rattle.formula.specs.Answers.{is_good, formula_of};
ghost use Rattle.implicates.specs.Appending.{answer_of, table_of};
ghost use Rattle.board.specs.Faults.{good_board};
ghost use Rattle.board.specs.Rules.{ruled, ruled_table};

use crate::testing::good;
use crate::{Board, Outcome};
use literals::refusal::Refusal;

// What stands for a place where none is told: no bytes lent are so many that one of them has it. No Option, since `NoPlaceElse` in `promises` names the
// number.
pub const NO_PLACE: usize = 0xffff_ffff_ffff_ffff;

// What adding rules answers, by bytes, by text or by an entry: for refusals 2 to 6 the place in the formula's bytes, for 15 that in the text,
// NO_PLACE otherwise; and how many rows were appended, 0 where it was refused. `NoPlaceElse` and `RefusedHandsBack` in `promises` speak of NO_PLACE,
// of 0 and of the board that a refused call hands back, so they stand beside the outcome.
#[derive(Clone, Copy)]
pub struct Addition {
    pub outcome: Outcome,
    pub place: usize,
    pub added: usize,
    pub board: Board,
}

// What a rule that is refused answers.
pub fn refused(board: Board, why: Refusal, place: usize) -> Addition
    ensures { result ≡ record { outcome = Err why; place = place; added = 0; board = board } }
{
    Addition {
        outcome: Err(why),
        place,
        added: 0,
        board,
    }
}

// Appends the rows of a formula that was read, whose symbols are listed.
fn append(
    table: &mut [i16],
    rows: usize,
    rules: usize,
    bytes: &[u8],
    symbols: usize,
    names: &[u8],
) -> Result<usize, Refusal>
    requires symbols_bound { (symbols ≤ 200) × (rules ≤ most_rules) × (rows ≤ rows_lent table.old) × (is_good (whole_of symbols bytes.now) ≡ true) }
    requires names_len_bound { (length names.now ≤ 8) × (names.now ≡ symbols_of symbols (formula_of (whole_of symbols bytes.now))) }
    ensures value { result ≡ answer_of (rule_of symbols (formula_of (whole_of symbols bytes.now))) rows rules (rows_lent table.old) }
    ensures table_after { table.new ≡
        table_of (rule_of symbols (formula_of (whole_of symbols bytes.now))) rows rules (rows_lent table.old)
        table.old }
{
    let mut truth = [false; 256];
    let values = 1 << names.len();
    formula::truth::fill_truth(bytes, symbols, names, &mut truth[..values]);
    let lent = literals::rows_lent(table);
    implicates::append_rule(table, rows, rules, lent, names, &truth[..values])
}

// Adds the rule of a formula that was read.
fn add_formula(board: Board, table: &mut [i16], bytes: &[u8]) -> Addition
    requires board_value { good_board table.old board ≡ true }
    requires bytes_value { is_good (whole_of board.symbols bytes.now) ≡ true }
    ensures value { result ≡ ruled table.old board bytes.now }
    ensures table_after { table.new ≡ ruled_table table.old board bytes.now }
{
    let names = match formula::naming::symbols_of(bytes, board.symbols) {
        Some(names) => names,
        None => return refused(board, Refusal::TooManySymbols, NO_PLACE),
    };
    let list = names.list;
    let count = names.count;
    match append(
        table,
        board.rows,
        board.rules,
        bytes,
        board.symbols,
        &list[..count],
    ) {
        Err(why) => refused(board, why, NO_PLACE),
        Ok(added) => {
            let mut next = board;
            next.rows = board.rows + added;
            next.rules = board.rules + 1;
            Addition {
                outcome: Ok(()),
                place: NO_PLACE,
                added,
                board: next,
            }
        }
    }
}

// Adds a rule.
pub fn add_rule(board: Board, table: &mut [i16], bytes: &[u8]) -> Addition
    ensures value { result ≡ ruled table.old board bytes.now }
    ensures table_after { table.new ≡ ruled_table table.old board bytes.now }
{
    if !good(board, table) {
        return refused(board, Refusal::BadBoard, NO_PLACE);
    }
    match formula::reading::read_whole(bytes, board.symbols) {
        Err(at) => refused(board, at.why, at.place),
        Ok(_) => add_formula(board, table, bytes),
    }
}
