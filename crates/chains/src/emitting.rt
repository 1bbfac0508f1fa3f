// From a text that keeps the form to the prefix bytes of its formula, in a buffer that is lent.
//
// A chain that is grouped from the left starts with one kind byte for each join, so the joins are counted first, by the reader, and
// then the units are written in their order. A byte past the buffer's end is left out, and counted all the same: with an empty
// buffer the writer says how many bytes there are.
// No heap: what is written goes into what is lent, and the place after it is told.

ghost use Rattle.std.specs.Prelude.{◌≡◌, true, ◌+◌, ◌*◌, ◌-◌, ◌≤◌, length, replicate};
ghost use Rattle.std.proofs.lemmas.List.Edits.{sets};
ghost use Rattle.formula.specs.Bytes.{number_byte, bytes_of};
ghost use Rattle.formula.specs.Answers.{is_good, formula_of};
ghost use Rattle.spelling.specs.Text.{Put};
ghost use Rattle.chains.specs.Form.{whole_text};
ghost use Rattle.chains.specs.Emitting.{minuses_of, capped, kind_for, mark_at, joins_at, symbol_bytes, unit_bytes, units_bytes, chain_bytes};

use crate::reading::{MOST_OPEN, unit};
use crate::signs::{Class, Start, goes_on, run, start_of};
use crate::storing::put;

// The same byte n times.
fn fill(out: &mut [u8], at: usize, n: usize, byte: u8)
    requires { at + n ≤ 0xffff_ffff_ffff_ffff }
    ensures { out.new ≡ sets out.old at (replicate n byte) }
{
    for k in 0..n {
        put(out, at + k, byte);
    }
}

// How many of the bytes are minus signs.
fn minuses(part: &[u8]) -> usize
    ensures { result ≡ minuses_of part.now }
{
    part.iter().filter(|byte| **byte == b'-').count()
}

// A digit more; 255 where the number is more.
fn grown(sum: u8, digit: u8) -> u8
    ensures { result ≡ number_byte (sum * 10 + (digit - 48)) }
{
    sum.saturating_mul(10)
        .saturating_add(digit.saturating_sub(b'0'))
}

// The number that digits spell, 255 where it is more.
fn value(digits: &[u8]) -> u8
    ensures { result ≡ capped 0 digits.now }
{
    digits.iter().fold(0, |sum, digit| grown(sum, *digit))
}

// The kind byte of a mark.
fn kind_for(mark: u8) -> u8
    ensures { result ≡ kind_for mark }
{
    match mark {
        b'&' => 0x12,
        b'|' => 0x13,
        b'>' => 0x14,
        _ => 0x15,
    }
}

// The byte after the first unit, 0 where there is none.
fn mark(text: &[u8], brackets: usize) -> u8
    ensures { result ≡ mark_at brackets text.now }
{
    match unit(text, brackets) {
        Err(_) => 0,
        Ok(count) => { if count < text.len() { text[count] } else { 0 } }
    }
}

// How many joins the chain has.
fn joins(text: &[u8], brackets: usize) -> usize
    ensures { result ≡ joins_at brackets text.now }
{
    let mut at = 0;
    let mut join = 0u8;
    let mut n = 0;
    // A loop: where the next unit starts, only reading this one tells.
    loop {
        match unit(&text[at..], brackets) {
            Err(_) => {
                return n;
            }
            Ok(count) => {
                at += count;
            }
        }
        if at == text.len() {
            return n;
        }
        let next = text[at];
        if !goes_on(join, next) {
            return n;
        }
        join = next;
        at += 1;
        n += 1;
    }
}

// A symbol: its kind and its number.
fn write_symbol(body: &[u8], out: &mut [u8], at: usize)
    requires { at + 2 ≤ 0xffff_ffff_ffff_ffff }
    ensures { out.new ≡ sets out.old at (symbol_bytes body.now) }
{
    let count = run(body, Class::Number);
    let number = value(&body[..count]);
    put(out, at, 0x10);
    put(out, at + 1, number);
}

// A unit's bytes from place `at` on, and where they end.
#[cycle(write_chain_write_unit_write_units)]
fn write_unit(text: &[u8], brackets: usize, out: &mut [u8], at: usize) -> usize
    requires { at + length (unit_bytes brackets text.now) ≤ 0xffff_ffff_ffff_ffff }
    ensures { Put out.old out.new at (unit_bytes brackets text.now) result }
{
    let skipped = run(text, Class::Denial);
    let n = minuses(&text[..skipped]);
    fill(out, at, n, 0x11);
    let next = at + n;
    let body = &text[skipped..];
    match start_of(body) {
        Start::Digits => {
            write_symbol(body, out, next);
            next + 2
        }
        Start::Bracket => {
            if brackets == 0 {
                return next;
            }
            write_chain(&body[1..], brackets - 1, out, next)
        }
        Start::Neither => next,
    }
}

// The units of a chain, one after the other.
#[cycle(write_chain_write_unit_write_units)]
fn write_units(text: &[u8], brackets: usize, out: &mut [u8], start: usize) -> usize
    requires { start + length (units_bytes brackets text.now) ≤ 0xffff_ffff_ffff_ffff }
    ensures { Put out.old out.new start (units_bytes brackets text.now) result }
{
    let mut at = 0;
    let mut join = 0u8;
    let mut to = start;
    // A loop: where the next unit starts, only reading this one tells.
    loop {
        to = write_unit(&text[at..], brackets, out, to);
        match unit(&text[at..], brackets) {
            Err(_) => {
                return to;
            }
            Ok(count) => {
                at += count;
            }
        }
        if at == text.len() {
            return to;
        }
        let next = text[at];
        if !goes_on(join, next) {
            return to;
        }
        join = next;
        at += 1;
    }
}

// A chain's bytes from place `at` on, and where they end.
#[cycle(write_chain_write_unit_write_units)]
fn write_chain(text: &[u8], brackets: usize, out: &mut [u8], at: usize) -> usize
    requires { at + length (chain_bytes brackets text.now) ≤ 0xffff_ffff_ffff_ffff }
    ensures { Put out.old out.new at (chain_bytes brackets text.now) result }
{
    let n = joins(text, brackets);
    let kind = kind_for(mark(text, brackets));
    fill(out, at, n, kind);
    write_units(text, brackets, out, at + n)
}

// The bytes of a text that keeps the form, from the front of the buffer on, and how many they are. The reader goes first.
pub fn emit(text: &[u8], out: &mut [u8]) -> usize
    requires { is_good (whole_text text.now) ≡ true }
    ensures { Put out.old out.new 0 (bytes_of (formula_of (whole_text text.now))) result }
{
    write_chain(text, MOST_OPEN, out, 0)
}
