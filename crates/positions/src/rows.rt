// The rows of a pair table: a clause for each position, that it is false or some allowed position of the other variable is true.
// No heap: what is written goes into what is lent, and the place after it is told.

ghost use Rattle.std.specs.Prelude.{◌≡◌, [], ◌∷◌, ◌++◌, map, true, false, suc, ◌+◌, ◌*◌, ◌<◌, ◌≤◌, length, take};
ghost use Rattle.meaning.specs.Tests.{any, from};
ghost use Rattle.meaning.specs.Literals.{place};
ghost use Rattle.positions.specs.Positions.{partners, pair_row};
ghost use Rattle.literals.specs.Row.{most_rules, of_rule, width};
ghost use Rattle.implicates.specs.Appending.{appended};
ghost use Rattle.positions.specs.Writing.{Sees, side_of, each_a_rule, side_rows};

use candidates::sets::has;
use implicates::one_row::append_row;

// A pair table as one of its variables sees it: the first symbol and the number of positions of its own and of its partner, the allowed pairs, and
// whether it is the table's second variable.
#[derive(Clone, Copy)]
pub struct View {
    pub own: usize,
    pub positions: usize,
    pub partner: usize,
    pub choices: usize,
    pub pairs: usize,
    pub turned: bool,
}

pub fn seen_from(
    own: usize,
    positions: usize,
    partner: usize,
    choices: usize,
    pairs: usize,
    turned: bool,
) -> View
    ensures { result ≡ record { own = own; positions = positions; partner = partner; choices = choices; pairs = pairs; turned = turned } }
{
    View {
        own,
        positions,
        partner,
        choices,
        pairs,
        turned,
    }
}

// Whether position i of its own may stand with position j of its partner: bit 7i + j, where its own is the first.
fn may(v: View, i: usize, j: usize) -> bool
    requires { (i < 7) × (j < 7) }
    ensures { result ≡ (side_of v).may i j }
{
    if v.turned {
        return has(v.pairs, 7 * j + i);
    }
    has(v.pairs, 7 * i + j)
}

// Whether position i may stand with some position of its partner.
fn has_partner(v: View, i: usize) -> bool
    requires { (i < 7) × (v.choices ≤ 7) }
    ensures { result ≡ any ((side_of v).may i) (from 0 v.choices) }
{
    (0..v.choices).any(|j| may(v, i, j))
}

// Whether some pair is allowed.
pub fn allows_some(v: View) -> bool
    requires { (v.positions ≤ 7) × (v.choices ≤ 7) }
    ensures { result ≡ any (λ i. any ((side_of v).may i) (from 0 v.choices)) (from 0 v.positions) }
{
    (0..v.positions).any(|i| has_partner(v, i))
}

// Puts the places of the literals that say that position i has an allowed partner into `row` from `at` on. Returns the place after them.
fn put_partners(row: &mut [usize], at: usize, v: View, i: usize) -> usize
    requires { Sees v × (i < v.positions) × (at ≤ 1) × (length row.old ≡ 8) }
    ensures { (length row.new ≡ 8) × (result ≤ at + v.choices)
        × (take result row.new ≡ take at row.old ++ map (λ t. place t true) (partners (side_of v) i)) }
{
    let mut n = at;
    for j in 0..v.choices {
        if may(v, i, j) {
            row[n] = 2 * (v.partner + j - 1);
            n += 1;
        }
    }
    n
}

// Puts the places of position i's clause to the front of `row`, its symbols rising. Returns how many they are.
fn put_clause(row: &mut [usize], v: View, i: usize) -> usize
    requires { Sees v × (i < v.positions) × (length row.old ≡ 8) }
    ensures { (length row.new ≡ 8) × (result ≤ 8) × (take result row.new ≡ pair_row (side_of v) i) }
{
    let itself = 2 * (v.own + i - 1) + 1;
    if v.own < v.partner {
        row[0] = itself;
        return put_partners(row, 1, v, i);
    }
    let n = put_partners(row, 0, v, i);
    row[n] = itself;
    n + 1
}

// Appends position i's clause at row `row`, with its rule's number.
fn append_clause(table: &mut [i16], row: usize, rule: usize, v: View, i: usize)
    requires { Sees v × (i < v.positions) × (rule ≤ most_rules) × (width * (row + 1) ≤ length table.old) }
    ensures { table.new ≡ appended table.old row (of_rule rule (pair_row (side_of v) i ∷ [])) }
{
    let mut places = [0usize; 8];
    let count = put_clause(&mut places, v, i);
    append_row(table, row, rule, &places, count);
}

// Appends the clauses of all positions from row `row` on, a rule each; `rules` come before them.
pub fn append_side(table: &mut [i16], row: usize, rules: usize, v: View)
    requires { Sees v × (rules + v.positions ≤ most_rules) × (width * (row + v.positions) ≤ length table.old) }
    ensures { table.new ≡ appended table.old row (each_a_rule (suc rules) (side_rows (side_of v))) }
{
    for i in 0..v.positions {
        append_clause(table, row + i, rules + i + 1, v, i);
    }
}
