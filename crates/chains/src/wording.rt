// The text of a formula, from its prefix bytes, in a buffer that is lent: brackets round each two-operand form but the whole formula.
//
// A byte past the buffer's end is left out, and counted all the same: with an empty buffer the writer says how many bytes there are.
// No heap: what is written goes into what is lent, and the place after it is told.

ghost use Rattle.std.specs.Prelude.{◌≡◌, true, ◌+◌, ◌≤◌, length, get_or};
ghost use Rattle.formula.specs.Answers.{is_good, formula_of, used_of};
ghost use Rattle.formula.specs.Kinds.{kind_of};
ghost use Rattle.formula.specs.Parse.{parse, levels};
ghost use Rattle.formula.specs.declared.reading.Kind.TheVariants.{Two};
ghost use Rattle.spelling.specs.Text.{natural, Put};
ghost use Rattle.chains.specs.Spelling.{mark_of, spelled, unit_text};

use crate::storing::put;
use formula::reading::{Join, Kind, LEVELS, kind_of};

// How many bytes the formula takes, and the place after its text.
#[derive(Clone, Copy)]
struct Spelt {
    used: usize,
    next: usize,
}

// The mark that stands between two operands.
fn mark_of(join: Join) -> u8
    ensures { result ≡ mark_of join }
{
    match join {
        Join::And => b'&',
        Join::Or => b'|',
        Join::Implies => b'>',
        Join::Same => b'=',
    }
}

// A number in decimal, and the place after it. Not `spelling::put_natural`, which asks for room: here a byte past the end is left out and counted.
fn put_number(out: &mut [u8], at: usize, n: u8) -> usize
    requires { at + length (natural n) ≤ 0xffff_ffff_ffff_ffff }
    ensures { Put out.old out.new at (natural n) result }
{
    if n < 10 {
        put(out, at, 48 + n);
        return at + 1;
    }
    let next = put_number(out, at, n / 10);
    put(out, next, 48 + n % 10);
    next + 1
}

// A formula that was read, as a unit: a two-operand form stands in brackets.
#[cycle(put_pair_put_unit)]
fn put_unit(bytes: &[u8], depth: usize, out: &mut [u8], at: usize) -> Spelt
    requires bytes_value { is_good (parse 255 depth bytes.now) ≡ true }
    requires bytes_bound { at + length (unit_text (formula_of (parse 255 depth bytes.now))) ≤ 0xffff_ffff_ffff_ffff }
    ensures used_value { result.used ≡ used_of (parse 255 depth bytes.now) }
    ensures put { Put out.old out.new at (unit_text (formula_of (parse 255 depth bytes.now))) result.next }
{
    let body = &bytes[1..];
    match kind_of(bytes[0]) {
        Kind::Symbol => {
            let next = put_number(out, at, body[0]);
            Spelt { used: 2, next }
        }
        Kind::Not => {
            put(out, at, b'-');
            let inner = put_unit(body, depth - 1, out, at + 1);
            Spelt {
                used: 1 + inner.used,
                next: inner.next,
            }
        }
        Kind::Two(join) => {
            put(out, at, b'(');
            let both = put_pair(bytes, depth, join, out, at + 1);
            put(out, both.next, b')');
            Spelt {
                used: both.used,
                next: both.next + 1,
            }
        }
        // Not reached: the formula was read.
        Kind::Unknown => Spelt { used: 0, next: at },
    }
}

// A two-operand form that was read, with no brackets round it: its operands as units, and the mark between them.
#[cycle(put_pair_put_unit)]
fn put_pair(bytes: &[u8], depth: usize, join: Join, out: &mut [u8], at: usize) -> Spelt
    requires bytes_value { is_good (parse 255 depth bytes.now) ≡ true }
    requires bytes_value_2 { kind_of (get_or bytes.now 0 0) ≡ Two join }
    requires bytes_bound { at + length (spelled (formula_of (parse 255 depth bytes.now))) ≤ 0xffff_ffff_ffff_ffff }
    ensures used_value { result.used ≡ used_of (parse 255 depth bytes.now) }
    ensures put { Put out.old out.new at (spelled (formula_of (parse 255 depth bytes.now))) result.next }
{
    let body = &bytes[1..];
    let first = put_unit(body, depth - 1, out, at);
    let used = first.used;
    put(out, first.next, mark_of(join));
    let second = put_unit(&body[used..], depth - 1, out, first.next + 1);
    Spelt {
        used: 1 + used + second.used,
        next: second.next,
    }
}

// Writes a formula over the symbols 1 to `symbols`, and returns how many bytes its text has. The caller has read the formula.
pub fn spell(bytes: &[u8], symbols: usize, out: &mut [u8]) -> usize
    requires symbols_bound { symbols ≤ 200 }
    requires bytes_value { is_good (parse symbols levels bytes.now) ≡ true }
    ensures { Put out.old out.new 0 (spelled (formula_of (parse symbols levels bytes.now))) result }
{
    match kind_of(bytes[0]) {
        Kind::Two(join) => {
            let pair = put_pair(bytes, LEVELS, join, out, 0);
            pair.next
        }
        _ => {
            let unit = put_unit(bytes, LEVELS, out, 0);
            unit.next
        }
    }
}
