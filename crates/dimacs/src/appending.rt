// The clauses of a text that was surveyed, written as rows into the caller's table.
// No heap: what is written goes into what is lent, and the place after it is told.

ghost use Rattle.std.specs.Prelude.{◌≡◌, true, suc, ◌+◌, ◌*◌, ◌≤◌, ltb, length, take, Ok};
ghost use Rattle.meaning.specs.Tests.{all};
ghost use Rattle.meaning.specs.SecondWay.{rules_of};
ghost use Rattle.literals.specs.Row.{most_literals, most_rules, of_rule, of_rules, rows_lent, width};
ghost use Rattle.implicates.specs.Appending.{appended};
ghost use Rattle.board.specs.Faults.{first_fault};
ghost use Rattle.dimacs.specs.Reading.{formulae_in, text_faults};
ghost use Rattle.dimacs.specs.Gathering.{clauses_from, rows_kept};

use crate::gathering::{Kept, gather};
use crate::words::next_word;
use implicates::one_row::append_row;

// Appends the row of a clause of which this is kept, at `row`, if it has one, with its rule's number. Returns the next free row.
fn append_clause(table: &mut [i16], row: usize, rule: usize, places: &[usize], k: Kept) -> usize
    requires count_in_bounds { (k.count ≤ length places.now) × (k.count ≤ most_literals) × (all (λ p. ltb p 400) (take k.count places.now) ≡ true)
        × (rule ≤ most_rules) }
    requires room { width * (row + length (rows_kept k.always (take k.count places.now))) ≤ length table.old }
    ensures table_after { table.new
        ≡ appended table.old row (of_rule rule (rows_kept k.always (take k.count places.now))) }
    ensures value { result ≡ row + length (rows_kept k.always (take k.count places.now)) }
{
    if k.always {
        return row;
    }
    append_row(table, row, rule, places, k.count);
    row + 1
}

// Appends the rows of the clauses from a place on, from row `used` on; `rules` come before these clauses.
pub fn append(
    table: &mut [i16],
    used: usize,
    rules: usize,
    text: &[u8],
    at: usize,
    variables: usize,
    symbols: usize,
)
    requires at_in_bounds { (at ≤ length text.now) × (1 ≤ symbols) × (symbols ≤ 200) × (used ≤ rows_lent table.old) × (rules ≤ most_rules) }
    requires text_value { first_fault (text_faults symbols used rules (rows_lent table.old) (clauses_from variables at text.now)) ≡ Ok tt }
    ensures { table.new
        ≡ appended table.old used (of_rules (suc rules) (rules_of symbols (formulae_in (clauses_from variables at text.now)))) }
{
    let mut places = [0usize; 8];
    let mut row = used;
    let mut rule = rules;
    let mut i = at;
    // A loop: where the next clause stands, only the end of this one tells.
    loop {
        let here = next_word(text, i);
        if here == text.len() {
            return;
        }
        let c = gather(&mut places, text, here, variables, symbols);
        let k = c.kept;
        rule += 1;
        row = append_clause(table, row, rule, &places, k);
        i = c.end;
    }
}
