// The two calls of `dimacs`, with what each answers printed.

ghost use Rattle.std.specs.Prelude.{◌≤◌, length};

use board::Board;
use dimacs::reading::Reading;
use dimacs::writing::Writing;
use report::comparing::{BYTE, changed, written};
use report::counting::how_many;
use report::printing;
use report::printing::{counted, text};
use report::quoting::quoted;
use std::io;

// Whether a refused reading left everything as it was.
fn as_given(before: Board, told: Reading, places: usize) -> bool {
    places == 0 && told.added == 0 && before == told.board
}

// What reading a text came to: the rows in use before it, those that it added, its clauses, and at how many places the table changed.
fn came_to(
    rt: &impl Print,
    before: Board,
    told: Reading,
    places: usize,
    table: &[i16],
) -> io::Result<()> {
    let outcome = told.outcome;
    let next = told.board;
    match outcome {
        Err(why) => {
            printing::refused(rt, why)?;
            counted(rt, b" after", told.clauses)?;
            text(rt, b" clauses")?;
            printing::left(rt, as_given(before, told, places))
        }
        Ok(()) => {
            printing::appended(rt, table, before.rows, told.added)?;
            counted(rt, b", clauses", told.clauses)?;
            counted(rt, b", changed", places)?;
            printing::board(rt, next)
        }
    }
}

// Reads a text onto a table of which the first `lent` numbers are lent; `given` is a copy of it.
fn read_in(
    rt: &impl Print,
    before: Board,
    given: &[i16],
    table: &mut [i16],
    lent: usize,
    bytes: &[u8],
) -> io::Result<()>
    requires { lent ≤ length table.old }
{
    let told = dimacs::reading::read(before, &mut table[..lent], bytes);
    text(rt, b"; read")?;
    quoted(rt, bytes, bytes.len())?;
    came_to(rt, before, told, changed(given, table), table)
}

// The same with a table that is not used again.
pub fn read(
    rt: &impl Print,
    before: Board,
    given: [i16; 45],
    lent: usize,
    bytes: &[u8],
) -> io::Result<()>
    requires { lent ≤ 45 }
{
    let mut table = given;
    read_in(rt, before, &given, &mut table, lent, bytes)
}

// What writing came to: how many bytes, and these; and how many of all the bytes are unwritten, which no byte of a text looks like.
fn wrote(rt: &impl Print, told: Writing, out: &[u8]) -> io::Result<()> {
    let outcome = told.outcome;
    match outcome {
        Err(why) => printing::refused_with(rt, why, told.bytes == 0 && written(out, BYTE) == 0),
        Ok(()) => {
            counted(rt, b" wrote", told.bytes)?;
            quoted(rt, out, told.bytes)?;
            counted(rt, b", unwritten", how_many(out, BYTE))
        }
    }
}

// Writes the rows in use, with the first so many bytes lent.
pub fn write_in(
    rt: &impl Print,
    before: Board,
    table: &[i16],
    out: &mut [u8],
    room: usize,
) -> io::Result<()>
    requires { room ≤ length out.old }
{
    let told = dimacs::writing::write(before, table, &mut out[..room]);
    counted(rt, b"; write in", room)?;
    wrote(rt, told, out)
}

// Writes the rows in use, with so many bytes of 100 lent.
pub fn write(rt: &impl Print, before: Board, table: &[i16], room: usize) -> io::Result<()>
    requires { room ≤ 100 }
{
    let mut out = [BYTE; 100];
    write_in(rt, before, table, &mut out, room)
}
