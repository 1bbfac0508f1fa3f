// One row that is given by the places of its literals, written into the caller's table.

ghost use Rattle.std.specs.Prelude.{◌≡◌, true, [], ◌∷◌, ◌+◌, ◌*◌, ◌<◌, ◌≤◌, ltb, get_or, length, take, pos};
ghost use Rattle.meaning.specs.Tests.{all};
ghost use Rattle.literals.specs.Literal.{literal_at};
ghost use Rattle.literals.specs.Row.{encode, most_literals, most_rules, of_rule, width};
ghost use Rattle.implicates.specs.Appending.{appended};

use literals::{MOST_LITERALS, WIDTH};

// The literal at a place.
fn literal_for(p: usize) -> i16
    requires { p < 400 }
    ensures { result ≡ literal_at p }
{
    let s = (p / 2 + 1) as i16;
    if p % 2 == 0 {
        return s;
    }
    -s
}

// Number k of a row of `count` places: a literal, or 0.
fn number_of(row: &[usize], count: usize, k: usize) -> i16
    requires { (count ≤ length row.now) × (count ≤ most_literals) × (k < most_literals) × (all (λ p. ltb p 400) (take count row.now) ≡ true) }
    ensures { result ≡ get_or (encode (take count row.now)) k (pos 0) }
{
    if k < count {
        return literal_for(row[k]);
    }
    0
}

// Writes a row of `count` places to a row's eight numbers in the table: the literals, and then zeros.
fn write_row(part: &mut [i16], row: &[usize], count: usize)
    requires { (length part.old ≡ most_literals) × (count ≤ length row.now) × (count ≤ most_literals)
        × (all (λ p. ltb p 400) (take count row.now) ≡ true) }
    ensures { part.new ≡ encode (take count row.now) }
{
    for (k, number) in part.iter_mut().enumerate() {
        *number = number_of(row, count, k);
    }
}

// Appends a row of `count` places, at row `row`, with its rule's number. `dimacs` and `positions` know that it is all that the rule has for rows.
pub fn append_row(table: &mut [i16], row: usize, rule: usize, places: &[usize], count: usize)
    requires count_in_bounds { (count ≤ length places.now) × (count ≤ most_literals) × (all (λ p. ltb p 400) (take count places.now) ≡ true)
        × (rule ≤ most_rules) }
    requires row_in_bounds { width * (row + 1) ≤ length table.old }
    ensures { table.new ≡ appended table.old row (of_rule rule (take count places.now ∷ [])) }
{
    let at = WIDTH * row;
    write_row(&mut table[at..at + MOST_LITERALS], places, count);
    table[at + MOST_LITERALS] = rule as i16;
}
