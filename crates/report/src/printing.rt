// Printing the parts of a line.

use board::rules::NO_PLACE;
use board::{Board, Outcome};
use findings::NONE;
use literals::refusal::Refusal;
use std::io;

pub fn text(rt: &impl Print, t: &[u8]) -> io::Result<()> {
    rt.write_all(t)
}

pub fn end(rt: &impl Print) -> io::Result<()> {
    text(rt, b"\n")
}

pub fn number(rt: &impl Print, n: usize) -> io::Result<()> {
    print!(rt; " {n}")
}

pub fn counted(rt: &impl Print, label: &[u8], n: usize) -> io::Result<()> {
    text(rt, label)?;
    number(rt, n)
}

// A rank or a row number, or a dash where there is none.
fn word(rt: &impl Print, n: u16) -> io::Result<()> {
    if n == NONE {
        text(rt, b" -")
    } else {
        print!(rt; " {n}")
    }
}

pub fn literal(rt: &impl Print, l: i16) -> io::Result<()> {
    print!(rt; " {l}")
}

// The numbers of a row, or of a part of one.
pub fn numbers(rt: &impl Print, row: &[i16]) -> io::Result<()> {
    text(rt, b" [")?;
    for l in row {
        literal(rt, *l)?;
    }
    text(rt, b" ]")
}

// The rows of a table from row `from` on, `count` of them.
pub fn rows(rt: &impl Print, table: &[i16], from: usize, count: usize) -> io::Result<()> {
    for row in table.chunks_exact(9).skip(from).take(count) {
        numbers(rt, row)?;
    }
    Ok(())
}

// The rows in use before a call, how many it added, and these.
pub fn appended(rt: &impl Print, table: &[i16], from: usize, count: usize) -> io::Result<()> {
    counted(rt, b" rows", from)?;
    number(rt, count)?;
    rows(rt, table, from, count)
}

// A byte as two hex digits, behind a mark, which is any byte and goes out as it is.
pub fn hex(rt: &impl Print, mark: u8, b: u8) -> io::Result<()> {
    let digits = b"0123456789abcdef";
    text(
        rt,
        &[mark, digits[(b / 16) as usize], digits[(b % 16) as usize]],
    )
}

// The bytes of a formula.
pub fn formula(rt: &impl Print, bytes: &[u8]) -> io::Result<()> {
    bytes.iter().try_for_each(|b| hex(rt, b' ', *b))
}

// The first n bytes of a list.
pub fn bytes(rt: &impl Print, list: &[u8], n: usize) -> io::Result<()> {
    list.iter().take(n).try_for_each(|b| print!(rt; " {b}"))
}

// The first n ranks or row numbers of a list.
pub fn words(rt: &impl Print, list: &[u16], n: usize) -> io::Result<()> {
    list.iter().take(n).try_for_each(|w| word(rt, *w))
}

// The premises of a furnace, in the order of their places.
fn premises(rt: &impl Print, held: &[bool]) -> io::Result<()> {
    text(rt, b" [")?;
    for (place, is_held) in held.iter().enumerate() {
        if *is_held {
            let sign = if place % 2 == 1 { "-" } else { "" };
            print!(rt; " {sign}{}", place / 2 + 1)?;
        }
    }
    text(rt, b" ]")
}

// A board, with the premises of furnace 1 and then those of furnace 2.
pub fn board(rt: &impl Print, b: Board) -> io::Result<()> {
    counted(rt, b" S", b.symbols)?;
    counted(rt, b" rows", b.rows)?;
    counted(rt, b" rules", b.rules)?;
    text(rt, b" held")?;
    premises(rt, &b.first)?;
    text(rt, b" and")?;
    premises(rt, &b.second)
}

// The front of a line: a board, and how many numbers of its table are lent.
pub fn on(rt: &impl Print, b: Board, lent: usize) -> io::Result<()> {
    text(rt, b"on")?;
    board(rt, b)?;
    counted(rt, b" lent", lent)
}

pub fn refused(rt: &impl Print, why: Refusal) -> io::Result<()> {
    counted(rt, b" no", u8::from(why) as usize)
}

pub fn outcome(rt: &impl Print, o: Outcome) -> io::Result<()> {
    match o {
        Ok(()) => text(rt, b" ok"),
        Err(why) => refused(rt, why),
    }
}

// Whether a refused call left everything as it was.
pub fn left(rt: &impl Print, same: bool) -> io::Result<()> {
    if same {
        text(rt, b", as given")
    } else {
        text(rt, b", changed")
    }
}

// Why a call was refused, and whether it left everything as it was.
pub fn refused_with(rt: &impl Print, why: Refusal, same: bool) -> io::Result<()> {
    refused(rt, why)?;
    left(rt, same)
}

// The same of a rule, with the place where its formula breaks, if it does.
pub fn rule_refused(rt: &impl Print, why: Refusal, place: usize, same: bool) -> io::Result<()> {
    refused(rt, why)?;
    if place != NO_PLACE {
        counted(rt, b" at", place)?;
    }
    left(rt, same)
}
