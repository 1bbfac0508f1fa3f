// Literals and rows of the clause table.
#![tactic(auto)]

pub mod refusal;

ghost use Rattle.std.specs.Prelude.{◌≡◌, ◌+◌, ◌*◌, ◌≤◌, ◌<◌, nat_abs, neg_ℤ, length, take, drop};
ghost use Rattle.literals.specs.Literal.{in_range, place_of};
ghost use Rattle.literals.specs.Row.{width, most_literals, rows_lent, rule_at, row_sound, rows_sound, decode};

// How many numbers a row has: places for its literals, and the number of its rule.
pub const WIDTH: usize = 9;

pub const MOST_LITERALS: usize = 8;

// The most rules that a board counts.
pub const MOST_RULES: usize = 32767;

// The most rows that are used, however many are lent.
const MOST_ROWS: usize = 2048;

// The number of a literal's symbol: its absolute value. -32768 has no opposite among the 16-bit numbers, so it is
// tested for before anything is negated.
pub fn symbol(l: i16) -> usize
    ensures { result ≡ nat_abs l }
{
    if l >= 0 {
        return l as usize;
    }
    if l == -32768 {
        return 32768;
    }
    (-l) as usize
}

// Whether `l` is a literal of one of the symbols 1 to `symbols`, for any 16-bit number.
pub fn in_range(l: i16, symbols: usize) -> bool
    ensures { result ≡ in_range symbols l }
{
    let s = symbol(l);
    1 <= s && s <= symbols
}

// The opposite literal: its negation. -32768 has none among the 16-bit numbers; a literal that was tested is not -32768.
pub fn opposite(l: i16) -> i16
    requires { nat_abs l < 32768 }
    ensures { result ≡ neg_ℤ l }
{
    -l
}

// The place of a literal that was tested: +s stands at 2(s - 1), -s right after it. Every literal of every round passes here, so it
// is worked out in 64 bits, where the sign costs no branch. `board` tests the literal itself; `index`, `findings` and `rounds` are
// lent rows that it tested.
pub fn place(l: i16) -> usize
    requires { (1 ≤ nat_abs l) × (nat_abs l ≤ 200) }
    ensures { result ≡ place_of l }
{
    let n = 2 * (l as isize);
    if l > 0 {
        (n - 2) as usize
    } else {
        (-1 - n) as usize
    }
}

// The rows that a table lends.
pub fn rows_lent(table: &[i16]) -> usize
    ensures { result ≡ rows_lent table.now }
{
    let n = table.len() / WIDTH;
    if n < MOST_ROWS { n } else { MOST_ROWS }
}

// Whether the eight numbers from place `at` on are a sound row's: one to eight literals of the symbols 1 to `symbols` with rising
// symbol numbers, and zeros after them. After a zero `last` is the largest symbol, so that no literal may follow.
fn row_sound(table: &[i16], at: usize, symbols: usize) -> bool
    requires { at + most_literals ≤ length table.now }
    ensures { result ≡ row_sound symbols (take most_literals (drop at table.now)) }
{
    let row = &table[at..at + MOST_LITERALS];
    if !in_range(row[0], symbols) {
        return false;
    }
    let mut last = symbol(row[0]);
    for l in &row[1..] {
        let s = symbol(*l);
        if s == 0 {
            last = symbols;
        } else {
            if s <= last || symbols < s {
                return false;
            }
            last = s;
        }
    }
    true
}

// The number of the rule that a row is from; 0 for a number below 0, which is no rule's.
pub fn rule_at(table: &[i16], row: usize) -> usize
    requires { width * (row + 1) ≤ length table.now }
    ensures { result ≡ rule_at table.now row }
{
    let n = table[WIDTH * row + MOST_LITERALS];
    if n >= 0 {
        return n as usize;
    }
    0
}

// Whether the first `used` rows of `table` are all sound, where `rules` are counted: the literals of each, and its rule's number. Numbers that do
// not fall are at most the last of them, so only that one is compared with the count. `board` tests first that so many rows are lent.
pub fn rows_sound(table: &[i16], used: usize, symbols: usize, rules: usize) -> bool
    requires { width * used ≤ length table.now }
    ensures { result ≡ rows_sound symbols rules used table.now }
{
    if used == 0 {
        return true;
    }
    let mut last: i16 = 1;
    for row in 0..used {
        if !row_sound(table, WIDTH * row, symbols) {
            return false;
        }
        let rule = table[WIDTH * row + MOST_LITERALS];
        if rule < last {
            return false;
        }
        last = rule;
    }
    last as usize <= rules
}

// How many literals the row from place `at` on has: its numbers before the first 0. `board` and `panel` ask it of rows in use.
pub fn literal_count(table: &[i16], at: usize) -> usize
    requires { at + most_literals ≤ length table.now }
    ensures { result ≡ length (decode (take most_literals (drop at table.now))) }
{
    for (n, l) in table[at..at + MOST_LITERALS].iter().enumerate() {
        if *l == 0 {
            return n;
        }
    }
    MOST_LITERALS
}
