// The sentences of the program, and where it writes.

use literals::refusal::Refusal;
use std::io;
use std::io::Stderr;

// Writes bytes to standard output.
pub fn say(rt: &impl Print, words: &[u8]) -> io::Result<()> {
    rt.write_all(words)
}

// Writes bytes to standard error.
pub fn complain(err: Stderr, words: &[u8]) -> io::Result<()> {
    err.write_all(words)
}

// What the form is.
pub fn help(err: Stderr) -> io::Result<()> {
    complain(
        err,
        b"spell: formulae in plain text on standard input, one a line\n",
    )?;
    complain(
        err,
        b"  a unit is a symbol, 1 to 200; - and a unit; or a formula in brackets ( )\n",
    )?;
    complain(
        err,
        b"  a formula is a unit; units joined by & (and) only, or by | (or) only;\n",
    )?;
    complain(
        err,
        b"  or two units joined by > (implies) or by = (same); blanks may stand round any mark\n",
    )?;
    complain(err, b"  example: (1&-2)>3\n")
}

// Why a rule is refused that was read.
pub fn say_refusal(rt: &impl Print, why: Refusal) -> io::Result<()> {
    match why {
        Refusal::BadLiteral => say(rt, b"refused 2: this byte is no symbol of 1 to 200\n"),
        Refusal::TooDeep => say(rt, b"refused 5: an operand stands deeper than 16\n"),
        Refusal::TooManySymbols => say(rt, b"refused 7: more than 8 different symbols\n"),
        Refusal::NoAssignment => say(rt, b"refused 8: no assignment satisfies it\n"),
        Refusal::TableFull => say(rt, b"refused 9: its rows do not fit\n"),
        _ => say_number(rt, u8::from(why)),
    }
}

// A refusal that no formula text meets on an empty board: its number alone.
fn say_number(rt: &impl Print, number: u8) -> io::Result<()> {
    say(rt, b"refused ")?;
    rt.print(number)?;
    say(rt, b"\n")
}
