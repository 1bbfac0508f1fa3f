// Adding rules: each refusal, the order of the tests, and the last free row.

ghost use Rattle.std.specs.Prelude.{◌≤◌};

use board::Board;
use report::boards::blank;
use report::{boards, pieces, printing};
use std::io;

fn show(rt: &impl Print, b: Board, lent: usize, bytes: &[u8]) -> io::Result<()>
    requires { lent ≤ 45 }
{
    printing::on(rt, b, lent)?;
    calls::rule(rt, b, boards::rows(), lent, bytes)?;
    printing::end(rt)
}

// Adds each formula of a list to the board, each by itself. A byte `/` stands between two.
fn each(rt: &impl Print, b: Board, lent: usize, list: &[u8]) -> io::Result<()>
    requires { lent ≤ 45 }
{
    pieces::each(list, |bytes| show(rt, b, lent, bytes))
}

// Fifteen "not" and then symbol 4, symbol 5 of 4, nothing, an "and"; sixteen and then nothing, symbol 1, kind 16.
fn deep(rt: &impl Print) -> io::Result<()> {
    each(
        rt,
        blank(4, 0, 0),
        44,
        b"\x11\x11\x11\x11\x11\x11\x11\x11\x11\x11\x11\x11\x11\x11\x11\x10\x04/\
          \x11\x11\x11\x11\x11\x11\x11\x11\x11\x11\x11\x11\x11\x11\x11\x10\x05/\
          \x11\x11\x11\x11\x11\x11\x11\x11\x11\x11\x11\x11\x11\x11\x11/\
          \x11\x11\x11\x11\x11\x11\x11\x11\x11\x11\x11\x11\x11\x11\x11\x12",
    )?;
    each(
        rt,
        blank(4, 0, 0),
        44,
        b"\x11\x11\x11\x11\x11\x11\x11\x11\x11\x11\x11\x11\x11\x11\x11\x11/\
          \x11\x11\x11\x11\x11\x11\x11\x11\x11\x11\x11\x11\x11\x11\x11\x11\x10\x01/\
          \x11\x11\x11\x11\x11\x11\x11\x11\x11\x11\x11\x11\x11\x11\x11\x11\x16",
    )
}

// No byte, a symbol with no number, "1 implies" and then nothing, and a symbol with no number. Symbols 0, 201 and 255 of 200. Kinds
// 0f and 16, and as second operands kinds 00 and 99 and symbol 0. "0 implies" and then kind 16, and kind 16 ahead of symbol 0. A byte
// more after symbol 1, symbol 0, and 1 and not 1, which by itself no assignment satisfies.
fn faults(rt: &impl Print) -> io::Result<()> {
    each(
        rt,
        blank(200, 0, 0),
        44,
        b"/\x10/\x14\x10\x01/\x14\x10\x01\x10/\x10\x00/\x10\xc9/\x10\xff/\x0f\x01/\x16\x01/\x14\x10\x01\x00/\
          \x12\x10\x01\x99/\x13\x10\x01\x10\x00/\x14\x10\x00\x16/\x14\x16\x10\x00/\x10\x01\x10/\x10\x00\x10/\
          \x12\x10\x01\x11\x10\x01/\x12\x10\x01\x11\x10\x01\x00",
    )
}

// Eight symbols and nine, joined by "or"; the nine and a byte more; nine of which no assignment satisfies the rule.
fn many(rt: &impl Print) -> io::Result<()> {
    each(
        rt,
        blank(200, 0, 0),
        44,
        b"\x13\x10\xc8\x13\x10\xc7\x13\x10\xc6\x13\x10\xc5\x13\x10\xc4\x13\x10\xc3\x13\x10\xc2\x10\xc1/\
          \x13\x10\x09\x13\x10\x08\x13\x10\x07\x13\x10\x06\x13\x10\x05\x13\x10\x04\x13\x10\x03\x13\x10\x02\x10\x01/\
          \x13\x10\x09\x13\x10\x08\x13\x10\x07\x13\x10\x06\x13\x10\x05\x13\x10\x04\x13\x10\x03\x13\x10\x02\x10\x01\x10/\
          \x12\x12\x10\x01\x11\x10\x01\x13\x10\x09\x13\x10\x08\x13\x10\x07\x13\x10\x06\x13\x10\x05\x13\x10\x04\x13\x10\x03\x10\x02",
    )
}

// A rule of one row, of three, of none, and one that no assignment satisfies, with 5, 4, 3 and 2 rows lent of which 2 are in use.
fn last_row(rt: &impl Print) -> io::Result<()> {
    each(
        rt,
        boards::both(),
        45,
        b"\x12\x13\x10\x01\x10\x02\x13\x11\x10\x01\x10\x03",
    )?;
    each(
        rt,
        boards::both(),
        44,
        b"\x12\x13\x10\x01\x10\x02\x13\x11\x10\x01\x10\x03",
    )?;
    each(rt, boards::both(), 27, b"\x14\x10\x01\x10\x02")?;
    each(
        rt,
        boards::both(),
        26,
        b"\x14\x10\x01\x10\x02/\x13\x10\x01\x11\x10\x01/\x12\x10\x01\x11\x10\x01",
    )
}

pub fn run(rt: &impl Print) -> io::Result<()> {
    deep(rt)?;
    faults(rt)?;
    many(rt)?;
    last_row(rt)
}
