// All prime implicates of a rule over at most eight symbols, from its truth table to rows.
#![tactic(auto)]

mod hits;
pub mod one_row;
mod rows;

ghost use Rattle.std.specs.Prelude.{◌≡◌, ◌*◌, ◌≤◌, ◌^◌, true, leb, length};
ghost use Rattle.meaning.specs.Tests.{all};
ghost use Rattle.literals.specs.Row.{width, most_rules};
ghost use Rattle.implicates.specs.Appending.{rule_by, answer_of, table_of};

use literals::MOST_RULES;
use literals::refusal::Refusal;

// Appends the prime implicates of the rule with the given symbols and truth table, from row `used` on, if some assignment
// satisfies it, they fit into `lent` rows, and the `rules` before it leave it a number. Gives how many rows that were. `board` has read the rule
// and tested the table.
pub fn append_rule(
    table: &mut [i16],
    used: usize,
    rules: usize,
    lent: usize,
    symbols: &[u8],
    truth: &[bool],
) -> Result<usize, Refusal>
    requires symbols_len_bound { (length symbols.now ≤ 8) × (all (leb 1) symbols.now ≡ true) × (length truth.now ≡ 2 ^ length symbols.now) }
    requires used_le_lent { (used ≤ lent) × (lent ≤ 2048) × (width * lent ≤ length table.old) × (rules ≤ most_rules) }
    ensures value { result ≡ answer_of (rule_by symbols.now truth.now) used rules lent }
    ensures table_after { table.new ≡ table_of (rule_by symbols.now truth.now) used rules lent table.old }
{
    let n = symbols.len();
    let mut clauses = [false; 6561];
    let count = hits::clause_count(n);
    hits::fill_hits(truth, n, &mut clauses[..count]);
    if !clauses[count - 1] {
        return Err(Refusal::NoAssignment);
    }
    hits::mark_primes(&mut clauses[..count], n);
    let rows = rows::row_count(&clauses[..count], n);
    if lent - used < rows || rules == MOST_RULES {
        return Err(Refusal::TableFull);
    }
    rows::append_primes(table, used, rules + 1, symbols, &clauses[..count], n);
    Ok(rows)
}
