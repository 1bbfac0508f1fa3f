// The text of rules, kept by their numbers.

ghost use Rattle.std.specs.Prelude.{◌≡◌, length};
ghost use Rattle.saying.specs.Limits.{kept_length};

use crate::pieces::{say, say_number, word_length};
use names::slots::put;
use orders::taking::MOST_BYTES;
use std::io;

// The rules whose text is kept, from 1 on.
pub const MOST_KEPT: usize = 2048;

// Keeps the text of one rule, if there is room for it.
fn keep_one(texts: &mut [u8], rule: usize, text: &[u8])
    requires { length texts.old ≡ kept_length }
{
    if rule < 1 {
        return;
    }
    if MOST_KEPT < rule {
        return;
    }
    let at = MOST_BYTES * (rule - 1);
    put(&mut texts[at..at + MOST_BYTES], text);
}

// Keeps one text for the rules behind `before` up to `last`.
pub fn keep(texts: &mut [u8], before: usize, last: usize, text: &[u8])
    requires { length texts.old ≡ kept_length }
{
    for rule in before..last {
        keep_one(texts, rule + 1, text);
    }
}

// The number of a rule and its text.
pub fn say_rule(rt: &impl Print, texts: &[u8], rule: usize) -> io::Result<()>
    requires { length texts.now ≡ kept_length }
{
    say(rt, b"rule ")?;
    say_number(rt, rule)?;
    if rule < 1 {
        return Ok(());
    }
    if MOST_KEPT < rule {
        return Ok(());
    }
    let at = MOST_BYTES * (rule - 1);
    let slot = &texts[at..at + MOST_BYTES];
    let n = word_length(slot);
    say(rt, b", ")?;
    say(rt, &slot[..n])
}
