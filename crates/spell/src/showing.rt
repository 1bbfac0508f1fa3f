// Lines on standard output: a text again, bytes in hex, carets and rows. The page is lent for one line at a time.

ghost use Rattle.std.specs.Prelude.{◌≡◌, ◌+◌, ◌*◌, ◌<◌, ◌≤◌, length};
ghost use Rattle.literals.specs.Row.{width};
ghost use Rattle.spell.specs.Shown.{shown_of};

use crate::pieces::{put_blanks, put_hex};
use literals::WIDTH;
use spelling::{put_marked, put_shown, put_word};
use std::io;

// So many bytes in hex fit on a screen of 80 columns.
const SCREEN: usize = 26;

// A line of input again.
pub fn show_line(rt: &impl Print, page: &mut [u8], line: &[u8]) -> io::Result<()>
    requires { length line.now + 1 ≤ length page.old }
{
    let mid = put_shown(page, 0, line);
    let end = put_word(page, mid, b"\n");
    rt.write_all(&page[..end])
}

// A caret in a column, counted from 0.
pub fn show_caret(rt: &impl Print, page: &mut [u8], column: usize) -> io::Result<()>
    requires { column + 2 ≤ length page.old }
{
    let mid = put_blanks(page, 0, column);
    let end = put_word(page, mid, b"^\n");
    rt.write_all(&page[..end])
}

// Bytes in hex, and what ends their line. The blank before the first byte is left out.
pub fn show_bytes(rt: &impl Print, page: &mut [u8], bytes: &[u8], tail: &[u8]) -> io::Result<()>
    requires { (1 ≤ length tail.now) × (3 * length bytes.now + length tail.now ≤ length page.old) }
{
    let mid = put_hex(page, 0, bytes);
    let end = put_word(page, mid, tail);
    rt.write_all(&page[1..end])
}

// How many bytes are shown where one is at fault: all where they fit on a screen, else those up to the one at fault.
fn shown_of(count: usize, place: usize) -> usize
    requires { place < count }
    ensures value { result ≡ shown_of count place }
    ensures lower_bound { (place < result) × (result ≤ count) }
{
    if count <= SCREEN {
        return count;
    }
    place + 1
}

// The first so many bytes, with two points behind them where more follow.
fn show_front(rt: &impl Print, page: &mut [u8], bytes: &[u8], n: usize) -> io::Result<()>
    requires { (n ≤ length bytes.now) × (3 * length bytes.now + 4 ≤ length page.old) }
{
    if n == bytes.len() {
        return show_bytes(rt, page, bytes, b"\n");
    }
    show_bytes(rt, page, &bytes[..n], b" ..\n")
}

// The bytes and a caret under the one at a place; nothing where there is no such byte.
pub fn show_place(rt: &impl Print, page: &mut [u8], bytes: &[u8], place: usize) -> io::Result<()>
    requires { 3 * length bytes.now + 4 ≤ length page.old }
{
    if bytes.len() <= place {
        return Ok(());
    }
    show_front(rt, page, bytes, shown_of(bytes.len(), place))?;
    show_caret(rt, page, 3 * place)
}

// A row's literals with bars between. The bar before the first is left out.
fn show_row(rt: &impl Print, part: &[i16]) -> io::Result<()>
    requires { length part.now ≤ 8 }
{
    let mut line = [0u8; 64];
    let mid = put_marked(&mut line, 0, b'|', part);
    let end = put_word(&mut line, mid, b"\n");
    rt.write_all(&line[1..end])
}

// The first so many rows of a table, one a line.
pub fn show_rows(rt: &impl Print, table: &[i16], rows: usize) -> io::Result<()>
    requires { width * rows ≤ length table.now }
{
    for row in 0..rows {
        let at = WIDTH * row;
        let n = literals::literal_count(table, at);
        show_row(rt, &table[at..at + n])?;
    }
    Ok(())
}
