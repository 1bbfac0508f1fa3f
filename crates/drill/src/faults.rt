// Each cause of refusal 1, at each call that can give it.

ghost use Rattle.std.specs.Prelude.{◌≤◌};

use crate::named;
use board::Board;
use report::boards::blank;
use report::{boards, printing};
use std::io;

// Every call but open, by furnace 1, with the first two rows of the table shown.
fn every(
    rt: &impl Print,
    b: Board,
    table: [i16; 45],
    lent: usize,
    bytes: &[u8],
    l: i16,
    places: usize,
) -> io::Result<()>
    requires { (lent ≤ 45) × (places ≤ 410) }
{
    printing::on(rt, b, lent)?;
    printing::rows(rt, &table, 0, 2)?;
    calls::rule(rt, b, table, lent, bytes)?;
    let part = &table[..lent];
    named::changing(rt, b, part, 1, l)?;
    named::reading(rt, b, part, 1, l, places)?;
    printing::end(rt)
}

// Every call for the rule 1 and the literal 2.
fn good_call(rt: &impl Print, b: Board, table: [i16; 45], lent: usize) -> io::Result<()>
    requires { lent ≤ 45 }
{
    every(rt, b, table, lent, b"\x10\x01", 2, 405)
}

// Every call for a formula of no byte, the literal 0 and tables of no place.
fn bad_call(rt: &impl Print, b: Board) -> io::Result<()> {
    every(rt, b, boards::rows(), 45, b"", 0, 0)
}

// A good board, whose one row in use has no sound row after it. Then S of 0 and 201, more rows in use than are lent, and the most
// that can be said. A bad call is refused for the board's sake first.
fn counts(rt: &impl Print) -> io::Result<()> {
    let alone = boards::table(&[-1, 2, 0, 0, 0, 0, 0, 0, 1]);
    good_call(rt, boards::with(blank(4, 1, 1), 0), alone, 45)?;
    bad_call(rt, boards::both())?;
    bad_call(rt, blank(0, 2, 2))?;
    good_call(rt, blank(0, 2, 2), boards::rows(), 45)?;
    good_call(rt, blank(201, 2, 2), boards::rows(), 45)?;
    good_call(rt, boards::none(), boards::rows(), 17)?;
    good_call(rt, blank(4, 18446744073709551615, 2), boards::rows(), 45)
}

// More rules counted than there are numbers, also where no row is in use, so many that 16 bits would keep 2 of them, and the most that can be said.
// A bad call is refused for the count's sake first.
fn rules(rt: &impl Print) -> io::Result<()> {
    good_call(rt, blank(4, 2, 32768), boards::rows(), 45)?;
    good_call(rt, blank(4, 0, 32768), boards::rows(), 45)?;
    good_call(rt, blank(4, 2, 65538), boards::rows(), 45)?;
    good_call(rt, blank(4, 2, 18446744073709551615), boards::rows(), 45)?;
    bad_call(rt, blank(4, 2, 32768))
}

// A board of 4 symbols whose second row begins with these numbers.
fn row(rt: &impl Print, a: i16, b: i16, c: i16) -> io::Result<()> {
    let table = boards::table(&[-1, 2, 0, 0, 0, 0, 0, 0, 1, a, b, c, 0, 0, 0, 0, 0, 2]);
    good_call(rt, boards::none(), table, 45)
}

// No literal, a zero in front and inside, falling symbols, a symbol twice, a symbol beyond S, and -32768 inside and in front.
fn rows(rt: &impl Print) -> io::Result<()> {
    row(rt, 0, 0, 0)?;
    row(rt, 0, 1, 2)?;
    row(rt, 1, 0, 2)?;
    row(rt, 2, -1, 0)?;
    row(rt, 1, -1, 0)?;
    row(rt, -1, 5, 0)?;
    row(rt, 1, -32768, 0)?;
    row(rt, -32768, 0, 0)
}

// A board that counts two rules, whose two rows have these numbers.
fn number(rt: &impl Print, a: i16, b: i16) -> io::Result<()> {
    good_call(rt, boards::none(), boards::numbered(a, b), 45)
}

// Falling numbers; 0, -1, -32768, and a number beyond the count, in the first row and in the second. Then a count below the numbers of sound rows.
fn numbers(rt: &impl Print) -> io::Result<()> {
    number(rt, 2, 1)?;
    number(rt, 0, 1)?;
    number(rt, 1, 0)?;
    number(rt, -1, 1)?;
    number(rt, 1, -1)?;
    number(rt, -32768, 1)?;
    number(rt, 1, -32768)?;
    number(rt, 3, 3)?;
    number(rt, 1, 3)?;
    number(rt, 2, 32767)?;
    good_call(rt, blank(4, 2, 1), boards::rows(), 45)?;
    good_call(rt, blank(4, 2, 0), boards::rows(), 45)
}

// Premises of symbols 5 and 200 of 4, held by furnace 1, and then by furnace 2.
fn held(rt: &impl Print) -> io::Result<()> {
    good_call(rt, boards::with(boards::both(), 8), boards::rows(), 45)?;
    good_call(rt, boards::with(boards::both(), 399), boards::rows(), 45)?;
    good_call(
        rt,
        boards::with_second(boards::both(), 8),
        boards::rows(),
        45,
    )?;
    good_call(
        rt,
        boards::with_second(boards::both(), 399),
        boards::rows(),
        45,
    )
}

pub fn run(rt: &impl Print) -> io::Result<()> {
    counts(rt)?;
    rules(rt)?;
    rows(rt)?;
    numbers(rt)?;
    held(rt)
}
