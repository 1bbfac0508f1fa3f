// The three calls of `text`, with what each answers printed.

ghost use Rattle.std.specs.Prelude.{◌≤◌, length};

use board::Board;
use report::comparing::{changed, written};
use report::printing;
use report::printing::counted;
use report::quoting::quoted;
use std::io;
use text::Spelling;

// What stands in the bytes lent before a call: no kind, no symbol's number and no byte of a text.
pub const FREE: u8 = 0xfe;

// Adds the rule of a text to a table of which the first `lent` numbers are lent; `given` is a copy of it.
fn add_in(
    rt: &impl Print,
    before: Board,
    given: &[i16],
    table: &mut [i16],
    lent: usize,
    words: &[u8],
) -> io::Result<()>
    requires { lent ≤ length table.old }
{
    let told = text::adding::add_text(before, &mut table[..lent], words);
    printing::text(rt, b"; add")?;
    calls::added(rt, before, told, changed(given, table), table)
}

// The same with a table that is not used again.
pub fn add(
    rt: &impl Print,
    before: Board,
    given: [i16; 45],
    lent: usize,
    words: &[u8],
) -> io::Result<()>
    requires { lent ≤ 45 }
{
    let mut table = given;
    add_in(rt, before, &given, &mut table, lent, words)
}

// The first n bytes of a list, in hex.
fn hexed(rt: &impl Print, list: &[u8], n: usize) -> io::Result<()> {
    list.iter()
        .take(n)
        .try_for_each(|b| printing::hex(rt, b' ', *b))
}

// What was written into the bytes lent: how many bytes are told, these in quotes or in hex, and how many of all that are lent changed.
fn came_to(rt: &impl Print, told: Spelling, out: &[u8], quotes: bool) -> io::Result<()> {
    let places = written(out, FREE);
    let outcome = told.outcome;
    match outcome {
        Err(why) => { printing::rule_refused(rt, why, told.place, told.bytes == 0 && places == 0) }
        Ok(()) => {
            counted(rt, b" wrote", told.bytes)?;
            if quotes {
                quoted(rt, out, told.bytes)?;
            } else {
                hexed(rt, out, told.bytes)?;
            }
            counted(rt, b", changed", places)
        }
    }
}

// Reads a text to bytes, with the first so many bytes lent.
fn read_in(
    rt: &impl Print,
    before: Board,
    table: &[i16],
    words: &[u8],
    out: &mut [u8],
    room: usize,
) -> io::Result<()>
    requires { room ≤ length out.old }
{
    let told = text::reading::read(before, table, words, &mut out[..room]);
    counted(rt, b"; read in", room)?;
    came_to(rt, told, out, false)
}

// Reads a text to bytes, with so many bytes of 100 lent.
pub fn read(
    rt: &impl Print,
    before: Board,
    table: &[i16],
    words: &[u8],
    room: usize,
) -> io::Result<()>
    requires { room ≤ 100 }
{
    let mut out = [FREE; 100];
    read_in(rt, before, table, words, &mut out, room)
}

// Writes the text of a formula's bytes, with the first so many bytes lent.
pub fn write_in(
    rt: &impl Print,
    before: Board,
    table: &[i16],
    bytes: &[u8],
    out: &mut [u8],
    room: usize,
) -> io::Result<()>
    requires { room ≤ length out.old }
{
    let told = text::writing::write(before, table, bytes, &mut out[..room]);
    printing::text(rt, b"; write")?;
    printing::formula(rt, bytes)?;
    counted(rt, b" in", room)?;
    came_to(rt, told, out, true)
}

// Writes the text of a formula's bytes, with so many bytes of 100 lent.
pub fn write(
    rt: &impl Print,
    before: Board,
    table: &[i16],
    bytes: &[u8],
    room: usize,
) -> io::Result<()>
    requires { room ≤ 100 }
{
    let mut out = [FREE; 100];
    write_in(rt, before, table, bytes, &mut out, room)
}
