// Names in a formula's text, replaced in place by the numbers of their symbols.

ghost use Rattle.std.specs.Prelude.{◌≡◌, ◌≤◌, length};
ghost use Rattle.names.specs.Names.{table_length};
ghost use Rattle.names.specs.Replacing.{numeral, renamed, replaced};

use crate::naming::{run, slot_of};

// Fills a part of a text with the last digits of a number, zeros before them.
fn fill_numeral(part: &mut [u8], number: usize)
    ensures { part.new ≡ numeral (length part.old) number }
{
    let mut rest = number;
    for k in (0..part.len()).rev() {
        part[k] = 48 + (rest % 10) as u8;
        rest /= 10;
    }
}

// Replaces a run of a name's bytes, if it is a symbol's name.
fn rename(part: &mut [u8], names: &[u8])
    requires { table_length ≤ length names.now }
    ensures { part.new ≡ renamed names.now part.old }
{
    if let Some(slot) = slot_of(names, part) {
        fill_numeral(part, slot + 1);
    }
}

// Replaces each name in a text.
pub fn replace(text: &mut [u8], names: &[u8])
    requires { table_length ≤ length names.now }
    ensures { text.new ≡ replaced names.now text.old }
{
    // A while: a round goes on by a whole run, and the run's bytes are written meanwhile.
    let mut at = 0;
    while at < text.len() {
        let n = run(&text[at..]);
        if n == 0 {
            at += 1;
        } else {
            rename(&mut text[at..at + n], names);
            at += n;
        }
    }
}
