// The different symbols of a formula, rising.
// No heap: the names lie in an array of eight, and how many there are stands beside it.

ghost use Rattle.std.specs.Prelude.{◌≡◌, ◌+◌, ◌≤◌, true, false, get_or};
ghost use Rattle.meaning.specs.Tests.{any, keep, from};
ghost use Rattle.formula.specs.Parse.{parse, levels};
ghost use Rattle.formula.specs.Answers.{is_good, used_of, marks_of, named, names_of};

use crate::reading::{Kind, LEVELS, kind_of};

// Up to eight symbols in rising order, with zeros after them.
#[derive(Drop)]
pub struct Names {
    pub list: [u8; 8],
    pub count: usize,
}

// Marks each symbol of a formula that was read, and returns how many bytes the formula takes.
fn mark(bytes: &[u8], depth: usize, marks: &mut [bool; 256]) -> usize
    requires { is_good (parse 255 depth bytes.now) ≡ true }
    ensures { (result ≡ used_of (parse 255 depth bytes.now))
        × (marks.new ≡ marks_of (parse 255 depth bytes.now) marks.old) }
{
    let body = &bytes[1..];
    match kind_of(bytes[0]) {
        Kind::Symbol => {
            let symbol = body[0] as usize;
            marks[symbol] = true;
            2
        }
        Kind::Not => 1 + mark(body, depth - 1, marks),
        Kind::Two(_) => {
            let first = mark(body, depth - 1, marks);
            let second = mark(&body[first..], depth - 1, marks);
            1 + first + second
        }
        // Not reached: the formula was read.
        Kind::Unknown => 0,
    }
}

// Whether one of the eight marks from `first` on is set.
fn one_of_eight(marks: &[bool; 256], first: usize) -> bool
    requires { first ≤ 248 }
    ensures { result ≡ any (λ k. get_or marks.now (first + k) false) (from 0 8) }
{
    marks[first..first + 8]
        .iter()
        .fold(false, |marked, mark| marked | *mark)
}

// The marked numbers from 1 to `symbols`, rising; None where there are more than eight. Few are marked, so eight without a mark are
// passed at once.
fn collect(marks: &[bool; 256], symbols: usize) -> Option<Names>
    requires { symbols ≤ 200 }
    ensures { result ≡ named (keep (λ s. get_or marks.now s false) (from 1 symbols)) }
{
    let mut list = [0u8; 8];
    let mut count = 0;
    let mut symbol = 1;
    // A while: from a number without a mark the next is one further, or eight.
    while symbol <= symbols {
        if !one_of_eight(marks, symbol) {
            symbol += 8;
            continue;
        }
        if marks[symbol] {
            if count == 8 {
                return None;
            }
            list[count] = symbol as u8;
            count += 1;
        }
        symbol += 1;
    }
    Some(Names { list, count })
}

// The different symbols of a formula over the symbols 1 to `symbols`; None where there are more than eight. `board` reads the formula first.
pub fn symbols_of(bytes: &[u8], symbols: usize) -> Option<Names>
    requires symbols_bound { symbols ≤ 200 }
    requires bytes_value { is_good (parse symbols levels bytes.now) ≡ true }
    ensures { result ≡ names_of symbols (parse symbols levels bytes.now) }
{
    let mut marks = [false; 256];
    mark(bytes, LEVELS, &mut marks);
    collect(&marks, symbols)
}
