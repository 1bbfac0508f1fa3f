// A line that is refused or not taken: the line again, a caret under the place, and why.

ghost use Rattle.std.specs.Prelude.{◌≡◌, ◌≤◌, length};
ghost use Rattle.names.specs.Names.{table_length};
ghost use Rattle.orders.specs.Lines.{most_bytes};

use crate::pieces::{say, say_blanks, say_line};
use crate::sentences::{say_refusal, say_slip};
use literals::refusal::Refusal;
use names::replacing::replace;
use names::slots::put;
use orders::Slip;
use orders::order::Order;
use orders::reading::number_in;
use orders::words::{rest, word_place};
use std::io;

// The line, where it does not stand there already, and a caret in a column.
pub fn point_at(rt: &impl Print, line: &[u8], echo: bool, column: usize) -> io::Result<()> {
    if !echo {
        say_line(rt, line)?;
    }
    say_blanks(rt, column)?;
    say(rt, b"^ ")
}

// A refusal that has no place.
pub fn refuse(rt: &impl Print, order: Order, why: Refusal) -> io::Result<()> {
    say(rt, b"  ")?;
    say_refusal(rt, order, why)
}

// A line that is not taken, by the word at fault.
pub fn show_slip(
    rt: &impl Print,
    line: &[u8],
    echo: bool,
    slip: Slip,
    word: usize,
) -> io::Result<()> {
    point_at(rt, line, echo, word_place(line, word))?;
    say_slip(rt, slip)
}

// Where a formula's text is refused with 15: what stands there in the text that is read, or that it ends.
fn say_broken(rt: &impl Print, text: &[u8], place: usize) -> io::Result<()> {
    say(rt, b"refused 15: ")?;
    if text.len() <= place {
        return say(rt, b"the formula ends too soon\n");
    }
    if names::naming::is_letter(text[place]) {
        return say(rt, b"no symbol has this name\n");
    }
    if text[place] == b'(' {
        return say(rt, b"no bracket may open here\n");
    }
    say(rt, b"no formula goes on like this\n")
}

// Whether a run is no number, or that of a symbol of the board.
fn is_good_number(run: &[u8], symbols: usize) -> bool {
    match number_in(run) {
        Err(_) => true,
        Ok(n) => 1 <= n && n <= symbols,
    }
}

// The place of the first number in a text that is no symbol of a board, past what is no number of its own; the text's length where there is none.
fn bad_number(text: &[u8], symbols: usize) -> usize
    ensures { result ≤ length text.now }
{
    // A while: a round goes on by a whole run, or by the byte that begins none.
    let mut at = 0;
    while at < text.len() {
        let n = names::naming::run(&text[at..]);
        if n == 0 {
            at += 1;
        } else {
            if !is_good_number(&text[at..at + n], symbols) {
                return at;
            }
            at += n;
        }
    }
    at
}

// A rule refused with 15, at its place.
fn show_broken(
    rt: &impl Print,
    line: &[u8],
    names: &[u8],
    echo: bool,
    place: usize,
) -> io::Result<()>
    requires { (length names.now ≡ table_length) × (length line.now ≤ most_bytes) }
{
    let typed = rest(line, 1);
    let n = typed.len();
    let mut room = [0u8; 500];
    put(&mut room[..n], typed);
    replace(&mut room[..n], names);
    let column = if place < n {
        line.len() - n + place
    } else {
        line.len()
    };
    point_at(rt, line, echo, column)?;
    say_broken(rt, &room[..n], place)
}

// A rule that is refused, at the place in the line where there is one.
pub fn show_rule(
    rt: &impl Print,
    line: &[u8],
    names: &[u8],
    echo: bool,
    symbols: usize,
    why: Refusal,
    place: usize,
) -> io::Result<()>
    requires { (length names.now ≡ table_length) × (length line.now ≤ most_bytes) }
{
    match why {
        Refusal::BadText => show_broken(rt, line, names, echo, place),
        Refusal::BadLiteral => {
            let from = word_place(line, 1);
            point_at(rt, line, echo, from + bad_number(&line[from..], symbols))?;
            say_refusal(rt, Order::Rule, why)
        }
        _ => refuse(rt, Order::Rule, why),
    }
}
