// What a line comes to, and its answer on standard output.

ghost use Rattle.std.specs.Prelude.{◌≡◌, true, ◌+◌, ◌*◌, ◌≤◌, length};
ghost use Rattle.literals.specs.Row.{width};
ghost use Rattle.formula.specs.Answers.{is_good};
ghost use Rattle.chains.specs.Form.{whole_text};
ghost use Rattle.spell.specs.Shown.{too_many_open};

use crate::sentences::{say, say_refusal};
use crate::showing::{show_bytes, show_caret, show_line, show_place, show_rows};
use board::rules::Addition;
use chains::emitting::emit;
use chains::reading::{MOST_OPEN, chain, read_text};
use literals::refusal::Refusal;
use std::io;

// The symbols of the board that a line is added to.
const SYMBOLS: usize = 200;

// A good rule: its bytes and its rows.
fn answer_rule(
    rt: &impl Print,
    bytes: &[u8],
    table: &[i16],
    rows: usize,
    page: &mut [u8],
) -> io::Result<()>
    requires { (width * rows ≤ length table.now) × (3 * length bytes.now + 4 ≤ length page.old) }
{
    show_bytes(rt, page, bytes, b"\n")?;
    if rows == 0 {
        return say(rt, b"no row: always true\n");
    }
    show_rows(rt, table, rows)
}

// A rule that is refused: the line, its bytes where one of them is at fault, and why.
fn answer_refused(
    rt: &impl Print,
    line: &[u8],
    bytes: &[u8],
    place: usize,
    why: Refusal,
    page: &mut [u8],
) -> io::Result<()>
    requires { (length line.now + 1 ≤ length page.old) × (3 * length bytes.now + 4 ≤ length page.old) }
{
    show_line(rt, page, line)?;
    show_place(rt, page, bytes, place)?;
    say_refusal(rt, why)
}

// What adding a rule came to. A refusal that tells no place has one beyond all bytes.
fn answer_outcome(
    rt: &impl Print,
    line: &[u8],
    bytes: &[u8],
    told: Addition,
    table: &[i16],
    page: &mut [u8],
) -> io::Result<()>
    requires { (width * told.added ≤ length table.now) × (length line.now + 1 ≤ length page.old)
        × (3 * length bytes.now + 4 ≤ length page.old) }
{
    let outcome = told.outcome;
    match outcome {
        Ok(()) => answer_rule(rt, bytes, table, told.added, page),
        Err(why) => answer_refused(rt, line, bytes, told.place, why, page),
    }
}

// A text that keeps the form. It is added to a new board, so that nothing of the lines before it counts, whatever the table still holds of them.
fn answer_formula(
    rt: &impl Print,
    line: &[u8],
    table: &mut [i16],
    bytes: &mut [u8],
    page: &mut [u8],
) -> io::Result<()>
    requires line_value { is_good (whole_text line.now) ≡ true }
    requires line_in_bounds { (2 * length line.now ≤ length bytes.old) × (6 * length line.now + 4 ≤ length page.old) }
{
    let size = emit(line, bytes);
    let new = board::changes::open(SYMBOLS);
    let told = text::adding::add_text(new.board, table, line);
    answer_outcome(rt, line, &bytes[..size], told, table, page)
}

// Whether a text is refused at a seventeenth open bracket: with one bracket more allowed the reader gets past the place.
fn too_many_open(line: &[u8], place: usize) -> bool
    ensures { result ≡ too_many_open line.now place }
{
    match chain(line, MOST_OPEN + 1) {
        Ok(count) => place < count,
        Err(other) => place < other.place,
    }
}

// A text that breaks the form: the line, a caret under the place, and what is wrong there.
fn answer_broken(rt: &impl Print, line: &[u8], place: usize, page: &mut [u8]) -> io::Result<()>
    requires { (place ≤ length line.now) × (length line.now + 2 ≤ length page.old) }
{
    show_line(rt, page, line)?;
    show_caret(rt, page, place)?;
    if place == line.len() {
        return say(rt, b"refused 15: the text ends too soon\n");
    }
    if too_many_open(line, place) {
        return say(rt, b"refused 15: more than 16 brackets are open\n");
    }
    say(rt, b"refused 15: no formula text has this byte here\n")
}

// Answers a line.
pub fn answer(
    rt: &impl Print,
    line: &[u8],
    table: &mut [i16],
    bytes: &mut [u8],
    page: &mut [u8],
) -> io::Result<()>
    requires { (2 * length line.now ≤ length bytes.old) × (6 * length line.now + 4 ≤ length page.old) }
{
    match read_text(line) {
        Ok(_) => answer_formula(rt, line, table, bytes, page),
        Err(at) => answer_broken(rt, line, at.place, page),
    }
}
