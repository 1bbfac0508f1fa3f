// The value of a formula under an assignment, and its truth table. An assignment to n symbols is a number below 2^n, one bit a
// symbol, the first symbol's the highest: so the table stands in the order of the assignments' numbers.

ghost use Rattle.std.specs.Prelude.{◌≡◌, true, ◌^◌, ◌≤◌, ◌<◌, length};
ghost use Rattle.meaning.specs.Formulae.{look};
ghost use Rattle.formula.specs.Kinds.{joined_value};
ghost use Rattle.formula.specs.Parse.{parse, levels};
ghost use Rattle.formula.specs.Answers.{is_good, bit_at, bits, valued_of, truth_of};

use crate::reading::{Join, Kind, LEVELS, kind_of};

// A formula's truth value, and how many bytes the formula takes.
#[derive(Drop)]
pub struct Valued {
    pub holds: bool,
    pub used: usize,
}

// The bit at a place of an assignment.
fn bit_at(assignment: usize, place: usize) -> bool
    requires { place < 64 }
    ensures { result ≡ bit_at assignment place }
{
    (assignment >> place) & 1 == 1
}

// What an assignment gives a symbol; false where the symbol is none of the names.
fn given(names: &[u8], symbol: u8, assignment: usize) -> bool
    requires { length names.now ≤ 8 }
    ensures { result ≡ look names.now (bits (length names.now) assignment) symbol }
{
    match names.iter().position(|name| *name == symbol) {
        Some(k) => bit_at(assignment, names.len() - 1 - k),
        None => false,
    }
}

// The value of two joined operands.
fn join_values(join: Join, first: bool, second: bool) -> bool
    ensures { result ≡ joined_value join first second }
{
    match join {
        Join::And => first && second,
        Join::Or => first || second,
        Join::Implies => if first { second } else { true },
        Join::Same => first == second,
    }
}

// The value of a formula that was read, under an assignment with one bit for each name.
fn evaluate(bytes: &[u8], depth: usize, names: &[u8], assignment: usize) -> Valued
    requires bytes_value { is_good (parse 255 depth bytes.now) ≡ true }
    requires names_len_bound { length names.now ≤ 8 }
    ensures { result
        ≡ valued_of (look names.now (bits (length names.now) assignment)) (parse 255 depth bytes.now) }
{
    let body = &bytes[1..];
    match kind_of(bytes[0]) {
        Kind::Symbol => Valued {
            holds: given(names, body[0], assignment),
            used: 2,
        },
        Kind::Not => {
            let operand = evaluate(body, depth - 1, names, assignment);
            Valued {
                holds: !operand.holds,
                used: 1 + operand.used,
            }
        }
        Kind::Two(join) => {
            let first = evaluate(body, depth - 1, names, assignment);
            let start = first.used;
            let second = evaluate(&body[start..], depth - 1, names, assignment);
            Valued {
                holds: join_values(join, first.holds, second.holds),
                used: 1 + start + second.used,
            }
        }
        // Not reached: the formula was read.
        Kind::Unknown => Valued {
            holds: false,
            used: 0,
        },
    }
}

// Writes the value of a formula under each assignment to the names. `board` reads the formula first, lists its names, and cuts
// the table to 2^n places.
pub fn fill_truth(bytes: &[u8], symbols: usize, names: &[u8], table: &mut [bool])
    requires symbols_bound { symbols ≤ 200 }
    requires bytes_value { is_good (parse symbols levels bytes.now) ≡ true }
    requires names_len_bound { (length names.now ≤ 8) × (length table.old ≡ 2 ^ length names.now) }
    ensures { table.new ≡ truth_of names.now (parse symbols levels bytes.now) }
{
    for (assignment, value) in table.iter_mut().enumerate() {
        *value = evaluate(bytes, LEVELS, names, assignment).holds;
    }
}
