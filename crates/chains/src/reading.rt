// How far a text keeps the form: two functions that call each other. Only a bracket calls for a chain, and a run of minus signs or of joined units is
// a loop, so that the calls nest no deeper than the brackets.

ghost use Rattle.std.specs.Prelude.{◌≡◌, ◌≤◌, length};
ghost use Rattle.formula.specs.Answers.{read_of, extent};
ghost use Rattle.chains.specs.Form.{number_end, unit_at, chain_at, whole_text};
ghost use Rattle.chains.specs.Answers.{closed_answer};

use crate::signs::{Class, Start, goes_on, run, start_of};
use formula::reading::{Break, breaks, past_by};
use literals::refusal::Refusal;

// So many brackets may be open at once, and no more.
pub const MOST_OPEN: usize = 16;

// Where a number and the spaces after it end.
fn number(body: &[u8]) -> usize
    ensures { result ≡ number_end body.now }
{
    let count = run(body, Class::Number);
    count + run(&body[count..], Class::Blank)
}

// The answer of a bracket past its opening mark, from that of the chain in it: the closing mark is due, then spaces.
fn closed(inner: &[u8], answer: Result<usize, Break>) -> Result<usize, Break>
    requires { extent answer ≤ length inner.now }
    ensures { result ≡ closed_answer inner.now answer }
{
    match answer {
        Err(at) => Err(at),
        Ok(count) => {
            if count == inner.len() {
                return breaks(Refusal::BadText, count);
            }
            if inner[count] != b')' {
                return breaks(Refusal::BadText, count);
            }
            Ok(count + 1 + run(&inner[count + 1..], Class::Blank))
        }
    }
}

// Reads a unit and the spaces after it.
#[cycle(chain_unit)]
pub fn unit(text: &[u8], brackets: usize) -> Result<usize, Break>
    ensures { result ≡ read_of (unit_at brackets text.now) }
{
    let skipped = run(text, Class::Denial);
    let body = &text[skipped..];
    match start_of(body) {
        Start::Digits => Ok(skipped + number(body)),
        Start::Bracket => {
            if brackets == 0 {
                return breaks(Refusal::BadText, skipped);
            }
            let inner = &body[1..];
            past_by(skipped + 1, closed(inner, chain(inner, brackets - 1)))
        }
        Start::Neither => breaks(Refusal::BadText, skipped),
    }
}

// Reads a chain: units until none is joined.
#[cycle(chain_unit)]
pub fn chain(text: &[u8], brackets: usize) -> Result<usize, Break>
    ensures { result ≡ read_of (chain_at brackets text.now) }
{
    let mut at = 0;
    let mut join = 0u8;
    // A loop: where the next unit starts, only reading this one tells.
    loop {
        match unit(&text[at..], brackets) {
            Err(b) => {
                return breaks(b.why, at + b.place);
            }
            Ok(count) => {
                at += count;
            }
        }
        if at == text.len() {
            return Ok(at);
        }
        let next = text[at];
        if !goes_on(join, next) {
            return Ok(at);
        }
        join = next;
        at += 1;
    }
}

// Reads the whole text: a chain that nothing follows.
pub fn read_text(text: &[u8]) -> Result<usize, Break>
    ensures { result ≡ read_of (whole_text text.now) }
{
    let count = chain(text, MOST_OPEN)?;
    if count < text.len() {
        return breaks(Refusal::BadText, count);
    }
    Ok(count)
}
