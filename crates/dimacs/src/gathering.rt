// One clause of a text, as a row of places in a lent buffer.
// No heap: what is written goes into what is lent, and the place after it is told.

ghost use Rattle.std.specs.Prelude.{◌≡◌, not, ◌≤◌, length};
ghost use Rattle.meaning.specs.Literals.{place};
ghost use Rattle.literals.specs.Row.{most_literals};
ghost use Rattle.dimacs.specs.Words.{beyond};
ghost use Rattle.dimacs.specs.Gathering.{Gathers, Steps};

use crate::sorting::insert;
use crate::words::{literal_at, next_word};

// What is kept of a clause's literals beside the row: how many places it has, whether a literal and its opposite are among them,
// whether they are of more than eight symbols, and whether one is beyond the board's symbols.
#[derive(Clone, Copy)]
pub struct Kept {
    pub count: usize,
    pub always: bool,
    pub many: bool,
    pub beyond: bool,
}

// A clause, the place after its 0, and whether it keeps the form: none of its literals is beyond the header's variables, and it has its 0. No Option:
// where the text was surveyed the clause is taken without asking.
#[derive(Clone, Copy)]
pub struct Clause {
    pub kept: Kept,
    pub end: usize,
    pub keeps: bool,
}

// The place of a literal.
fn place_of(symbol: usize, negative: bool) -> usize
    requires { (1 ≤ symbol) × (symbol ≤ beyond) }
    ensures { result ≡ place symbol (not negative) }
{
    if negative {
        return 2 * (symbol - 1) + 1;
    }
    2 * (symbol - 1)
}

// Takes in a literal more.
fn take_in(row: &mut [usize], k: Kept, symbols: usize, symbol: usize, negative: bool) -> Kept
    requires { (1 ≤ symbol) × (symbol ≤ beyond) × (k.count ≤ length row.old) × (length row.old ≡ most_literals) }
    ensures { Steps symbols symbol negative row.old row.new k result }
{
    let beyond = k.beyond || symbols < symbol;
    if k.many {
        return Kept { beyond, ..k };
    }
    let s = insert(row, k.count, place_of(symbol, negative));
    Kept {
        count: s.count,
        always: k.always || s.clash,
        many: s.full,
        beyond,
    }
}

// Gathers the clause from a place on, as far as it keeps the form.
pub fn gather(row: &mut [usize], text: &[u8], at: usize, variables: usize, symbols: usize) -> Clause
    requires { (at ≤ length text.now) × (length row.old ≡ most_literals) }
    ensures { Gathers symbols variables text.now at row.new result }
{
    let mut k = Kept {
        count: 0,
        always: false,
        many: false,
        beyond: false,
    };
    let mut i = at;
    // A loop: where the next literal stands, only the end of this one tells.
    loop {
        let here = next_word(text, i);
        if here == text.len() {
            return Clause {
                kept: k,
                end: here,
                keeps: false,
            };
        }
        let l = literal_at(text, here);
        if variables < l.symbol {
            return Clause {
                kept: k,
                end: here,
                keeps: false,
            };
        }
        if l.symbol == 0 {
            return Clause {
                kept: k,
                end: l.end,
                keeps: true,
            };
        }
        k = take_in(row, k, symbols, l.symbol, l.negative);
        i = l.end;
    }
}
