// Prime implicates written as rows: fewer literals first, then by number.

ghost use Rattle.std.specs.Prelude.{◌≡◌, [], ◌∷◌, map, ◌+◌, ◌*◌, ◌<◌, ◌≤◌, ◌^◌, length, replicate, pos, not, true, leb};
ghost use Rattle.meaning.specs.Tests.{all};
ghost use Rattle.meaning.specs.Literals.{place};
ghost use Rattle.meaning.specs.BySize.{of_size};
ghost use Rattle.meaning.specs.Clauses.{clauses, size, in_order, row_of};
ghost use Rattle.literals.specs.Literal.{literal_at};
ghost use Rattle.literals.specs.Row.{width, most_literals, most_rules, encode, of_rule};
ghost use Rattle.implicates.specs.Numbers.{clause_at};
ghost use Rattle.implicates.specs.Hits.{marked};
ghost use Rattle.implicates.specs.Appending.{appended};

use literals::{MOST_LITERALS, WIDTH};

// The number of literals of the clause numbered c.
fn literal_count(n: usize, c: usize) -> usize
    requires { c < 3 ^ n }
    ensures { result ≡ size (clause_at n c) }
{
    let mut rest = c;
    let mut count = 0;
    for _ in 0..n {
        if rest % 3 < 2 {
            count += 1;
        }
        rest = rest / 3;
    }
    count
}

// A symbol, or its negation. Symbols are numbered from 1.
fn literal(symbol: u8, negated: bool) -> i16
    requires { 0 < symbol }
    ensures { result ≡ literal_at (place symbol (not negated)) }
{
    let s = symbol as i16;
    if negated { -s } else { s }
}

// Writes the `count` literals of the clause numbered c to the front of a row of zeros, the last one first.
fn put_literals(row: &mut [i16], symbols: &[u8], n: usize, c: usize, count: usize)
    requires { (row.old ≡ replicate most_literals (pos 0)) × (n ≤ 8) × (n ≡ length symbols.now) × (all (leb 1) symbols.now ≡ true)
        × (c < 3 ^ n) × (count ≡ size (clause_at n c)) }
    ensures { row.new ≡ encode (row_of symbols.now (clause_at n c)) }
{
    let mut rest = c;
    let mut at = count;
    for k in (0..n).rev() {
        let digit = rest % 3;
        if digit < 2 {
            at -= 1;
            row[at] = literal(symbols[k], digit == 1);
        }
        rest = rest / 3;
    }
}

// Writes the clause numbered c, of `count` literals, into a row's eight places: the literals, and then zeros.
fn write_row(row: &mut [i16], symbols: &[u8], n: usize, c: usize, count: usize)
    requires { (length row.old ≡ most_literals) × (n ≤ 8) × (n ≡ length symbols.now) × (all (leb 1) symbols.now ≡ true)
        × (c < 3 ^ n) × (count ≡ size (clause_at n c)) }
    ensures { row.new ≡ encode (row_of symbols.now (clause_at n c)) }
{
    row.fill(0);
    put_literals(row, symbols, n, c, count);
}

// How many clauses the table marks: so many rows are appended.
pub fn row_count(primes: &[bool], n: usize) -> usize
    requires { length primes.now ≡ 3 ^ n }
    ensures { result ≡ length (in_order (marked primes.now) n) }
{
    // No chain: a chain that filters and counts goes through the marks one at a time, this loop through sixteen at once.
    let mut count = 0;
    for c in 0..primes.len() {
        if primes[c] {
            count += 1;
        }
    }
    count
}

// Appends the clause numbered c at `row`, with its rule's number, if it is a prime implicate of k literals. Returns the next free row.
fn append_one(
    table: &mut [i16],
    row: usize,
    rule: usize,
    symbols: &[u8],
    primes: &[bool],
    n: usize,
    k: usize,
    c: usize,
) -> usize
    requires n_bound { (n ≤ 8) × (n ≡ length symbols.now) × (all (leb 1) symbols.now ≡ true) × (c < 3 ^ n)
        × (3 ^ n ≤ length primes.now) × (rule ≤ most_rules) }
    requires room { width * (row + length (of_size size (marked primes.now) (clause_at n c ∷ []) k)) ≤ length table.old }
    ensures table_after { table.new ≡ appended table.old row
        (of_rule rule (map (row_of symbols.now) (of_size size (marked primes.now) (clause_at n c ∷ []) k))) }
    ensures value { result ≡ row + length (of_size size (marked primes.now) (clause_at n c ∷ []) k) }
{
    if !primes[c] {
        return row;
    }
    if literal_count(n, c) != k {
        return row;
    }
    let at = WIDTH * row;
    write_row(&mut table[at..at + MOST_LITERALS], symbols, n, c, k);
    table[at + MOST_LITERALS] = rule as i16;
    row + 1
}

// Appends the prime implicates of k literals from `row` on, by number. Returns the next free row.
fn append_size(
    table: &mut [i16],
    row: usize,
    rule: usize,
    symbols: &[u8],
    primes: &[bool],
    n: usize,
    k: usize,
) -> usize
    requires n_bound { (n ≤ 8) × (n ≡ length symbols.now) × (all (leb 1) symbols.now ≡ true) × (length primes.now ≡ 3 ^ n) × (rule ≤ most_rules) }
    requires room { width * (row + length (of_size size (marked primes.now) (clauses n) k)) ≤ length table.old }
    ensures table_after { table.new ≡ appended table.old row
        (of_rule rule (map (row_of symbols.now) (of_size size (marked primes.now) (clauses n) k))) }
    ensures value { result ≡ row + length (of_size size (marked primes.now) (clauses n) k) }
{
    let mut next = row;
    for c in 0..primes.len() {
        next = append_one(table, next, rule, symbols, primes, n, k, c);
    }
    next
}

// Appends the prime implicates that the table marks, from `row` on: fewer literals first, then by number. Returns the
// next free row.
pub fn append_primes(
    table: &mut [i16],
    row: usize,
    rule: usize,
    symbols: &[u8],
    primes: &[bool],
    n: usize,
) -> usize
    requires n_bound { (n ≤ 8) × (n ≡ length symbols.now) × (all (leb 1) symbols.now ≡ true) × (length primes.now ≡ 3 ^ n) × (rule ≤ most_rules) }
    requires room { width * (row + length (in_order (marked primes.now) n)) ≤ length table.old }
    ensures table_after { table.new ≡ appended table.old row
        (of_rule rule (map (row_of symbols.now) (in_order (marked primes.now) n))) }
    ensures value { result ≡ row + length (in_order (marked primes.now) n) }
{
    let mut next = row;
    for k in 0..=n {
        next = append_size(table, next, rule, symbols, primes, n, k);
    }
    next
}
