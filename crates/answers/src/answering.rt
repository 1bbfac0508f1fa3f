// What is answered to a line that was taken.

ghost use Rattle.std.specs.Prelude.{◌≡◌, ◌≤◌, length};
ghost use Rattle.names.specs.Names.{table_length};
ghost use Rattle.orders.specs.Lines.{most_bytes};
ghost use Rattle.saying.specs.Limits.{kept_length};

use crate::choosing::{Fault, least_line, sets_line};
use crate::{asking, table, tree};
use literals::refusal::Refusal;
use names::naming::slot_of;
use orders::order::Order;
use orders::reading::literal_in;
use orders::taking::MOST_BYTES;
use orders::words::{ends_at, rest, word, word_place};
use orders::{Desk, Reply, Slip, Told};
use saying::help::help;
use saying::pieces::{say, say_literal, say_number};
use saying::premises::last_tried;
use saying::showing::{point_at, refuse, show_rule, show_slip};
use saying::texts;
use std::io;

// ---- lines that were done

// How many rows were added.
fn say_added(rt: &impl Print, added: usize) -> io::Result<()> {
    if added == 0 {
        return say(rt, b"no row, always true\n");
    }
    say_number(rt, added)?;
    if added == 1 {
        return say(rt, b" row\n");
    }
    say(rt, b" rows\n")
}

// The rules that a line added, by the numbers before and after it, and whether their text is kept.
fn say_rules(rt: &impl Print, before: usize, last: usize, added: usize) -> io::Result<()> {
    if last <= before {
        return Ok(());
    }
    if before + 1 == last {
        say(rt, b"  rule ")?;
        say_number(rt, last)?;
    } else {
        say(rt, b"  rules ")?;
        say_number(rt, before + 1)?;
        say(rt, b" to ")?;
        say_number(rt, last)?;
    }
    say(rt, b": ")?;
    say_added(rt, added)?;
    if texts::MOST_KEPT < last {
        say(rt, b"  the text of a rule above 2048 is not kept\n")?;
    }
    Ok(())
}

// A line with one literal, done.
fn say_literal_done(rt: &impl Print, names: &[u8], line: &[u8], done: &[u8]) -> io::Result<()>
    requires { length names.now ≡ table_length }
{
    say(rt, b"  ")?;
    match literal_in(names, word(line, 1)) {
        Ok(l) => say_literal(rt, names, l),
        Err(_) => say(rt, word(line, 1)),
    }?;
    say(rt, done)
}

// A name that was given.
fn say_named(rt: &impl Print, names: &[u8], line: &[u8]) -> io::Result<()>
    requires { length names.now ≡ table_length }
{
    let given = word(line, 2);
    say(rt, b"  ")?;
    say(rt, given)?;
    say(rt, b" is symbol ")?;
    if let Some(slot) = slot_of(names, given) {
        say_number(rt, slot + 1)?;
    }
    say(rt, b"\n")
}

// A rule, a valve or a pair table: its text is kept.
fn say_entered(
    rt: &impl Print,
    before: Desk,
    after: Desk,
    texts: &mut [u8],
    text: &[u8],
    added: usize,
) -> io::Result<()>
    requires { length texts.old ≡ kept_length }
{
    let old = before.board;
    let new = after.board;
    texts::keep(texts, old.rules, new.rules, text);
    say_rules(rt, old.rules, new.rules, added)
}

fn say_opened(rt: &impl Print, after: Desk) -> io::Result<()> {
    let board = after.board;
    say(rt, b"  board of ")?;
    say_number(rt, board.symbols)?;
    say(rt, b" symbols\n")
}

fn say_worked(rt: &impl Print, after: Desk) -> io::Result<()> {
    say(rt, b"  furnace ")?;
    say_number(rt, after.furnace as usize)?;
    say(rt, b"\n")
}

fn say_popped(rt: &impl Print, before: Desk, names: &[u8]) -> io::Result<()>
    requires { length names.now ≡ table_length }
{
    say(rt, b"  ")?;
    say_literal(rt, names, last_tried(before))?;
    say(rt, b" is taken back\n")
}

// A line that changed something.
fn say_done(
    rt: &impl Print,
    before: Desk,
    after: Desk,
    names: &[u8],
    texts: &mut [u8],
    line: &[u8],
    order: Order,
    added: usize,
) -> io::Result<()>
    requires { (length names.now ≡ table_length) × (length texts.old ≡ kept_length) }
{
    match order {
        Order::Open => say_opened(rt, after),
        Order::Name => say_named(rt, names, line),
        Order::Rule => say_entered(rt, before, after, texts, rest(line, 1), added),
        Order::Valve => say_entered(rt, before, after, texts, rest(line, 0), added),
        Order::Pairs => say_entered(rt, before, after, texts, rest(line, 0), added),
        Order::Furnace => say_worked(rt, after),
        Order::Hold => say_literal_done(rt, names, line, b" is held\n"),
        Order::Drop => say_literal_done(rt, names, line, b" is dropped\n"),
        Order::Push => say_literal_done(rt, names, line, b" is held on trial\n"),
        _ => say_popped(rt, before, names),
    }
}

// ---- lines that ask

// One literal and no word more.
fn sole_literal(names: &[u8], line: &[u8]) -> Result<i16, Fault>
    requires { length names.now ≡ table_length }
{
    let l = literal_in(names, word(line, 1)).map_err(|slip| Fault { slip, word: 1 })?;
    if !ends_at(line, 2) {
        return Err(Fault {
            slip: Slip::WordTooMany,
            word: 2,
        });
    }
    Ok(l)
}

// A line that asks of one literal.
fn answer_literal(
    rt: &impl Print,
    desk: Desk,
    table: &[i16],
    names: &[u8],
    texts: &[u8],
    line: &[u8],
    echo: bool,
    order: Order,
) -> io::Result<()>
    requires { (length names.now ≡ table_length) × (length texts.now ≡ kept_length) }
{
    match sole_literal(names, line) {
        Err(fault) => show_slip(rt, line, echo, fault.slip, fault.word),
        Ok(l) => match order {
            Order::Why => tree::why(rt, desk, table, names, texts, l),
            Order::Ground => asking::ground(rt, desk, table, names, l),
            _ => asking::ask(rt, desk, table, names, l),
        },
    }
}

// A line of one word that asks.
fn answer_word(
    rt: &impl Print,
    desk: Desk,
    table: &[i16],
    names: &[u8],
    line: &[u8],
    echo: bool,
    order: Order,
) -> io::Result<()>
    requires { length names.now ≡ table_length }
{
    if !ends_at(line, 1) {
        return show_slip(rt, line, echo, Slip::WordTooMany, 1);
    }
    match order {
        Order::Marks => asking::marks(rt, desk, table, names),
        Order::Blame => asking::blame(rt, desk, table, names),
        Order::Rows => table::rows(rt, desk, table, names),
        Order::Cnf => table::cnf(rt, desk, table),
        _ => help(rt),
    }
}

// Whether lines are printed ahead of their answers from here on.
fn answer_echo(rt: &impl Print, line: &[u8], echo: bool) -> io::Result<bool> {
    let given = word(line, 1);
    let on = given == b"on".as_slice();
    if !on && given != b"off".as_slice() {
        point_at(rt, line, echo, word_place(line, 1))?;
        say(rt, b"not taken: on or off is due here\n")?;
        return Ok(echo);
    }
    if !ends_at(line, 2) {
        show_slip(rt, line, echo, Slip::WordTooMany, 2)?;
        return Ok(echo);
    }
    say(rt, b"  echo ")?;
    say(rt, given)?;
    say(rt, b"\n")?;
    Ok(on)
}

// A line that asks. Tells whether lines are printed from here on.
fn answer_asked(
    rt: &impl Print,
    desk: Desk,
    table: &[i16],
    names: &[u8],
    texts: &[u8],
    line: &[u8],
    echo: bool,
    order: Order,
) -> io::Result<bool>
    requires { (length names.now ≡ table_length) × (length texts.now ≡ kept_length) }
{
    match order {
        Order::Echo => {
            return answer_echo(rt, line, echo);
        }
        Order::Ask => answer_literal(rt, desk, table, names, texts, line, echo, order),
        Order::Why => answer_literal(rt, desk, table, names, texts, line, echo, order),
        Order::Ground => answer_literal(rt, desk, table, names, texts, line, echo, order),
        Order::Least => least_line(rt, desk, table, names, line, echo),
        Order::Sets => sets_line(rt, desk, table, names, line, echo),
        _ => answer_word(rt, desk, table, names, line, echo, order),
    }?;
    Ok(echo)
}

// ---- every line

// A line that is refused.
fn say_refused(
    rt: &impl Print,
    before: Desk,
    names: &[u8],
    line: &[u8],
    echo: bool,
    order: Order,
    why: Refusal,
    place: usize,
) -> io::Result<()>
    requires { (length names.now ≡ table_length) × (length line.now ≤ most_bytes) }
{
    match order {
        Order::Rule => {
            let board = before.board;
            show_rule(rt, line, names, echo, board.symbols, why, place)
        }
        _ => refuse(rt, order, why),
    }
}

// A line that has too many bytes to be shown again, by its number.
fn say_too_long(rt: &impl Print, number: usize) -> io::Result<()> {
    say(rt, b"  not taken: line ")?;
    say_number(rt, number)?;
    say(rt, b" has more than 500 bytes\n")
}

// Answers a line by what it came to, and tells whether lines are printed from here on. `before` and `after` are the desk on either side of it.
pub fn answer(
    rt: &impl Print,
    before: Desk,
    after: Desk,
    told: Told,
    table: &[i16],
    names: &[u8],
    texts: &mut [u8],
    line: &[u8],
    echo: bool,
    number: usize,
) -> io::Result<bool>
    requires { (length names.now ≡ table_length) × (length texts.old ≡ kept_length) }
{
    if MOST_BYTES < line.len() {
        say_too_long(rt, number)?;
        return Ok(echo);
    }
    let order = orders::order::order_of(word(line, 0));
    let reply = told.reply;
    match reply {
        Reply::Nothing => Ok(echo),
        Reply::Done => {
            say_done(rt, before, after, names, texts, line, order, told.added)?;
            Ok(echo)
        }
        Reply::Refused(why) => {
            say_refused(rt, before, names, line, echo, order, why, told.place)?;
            Ok(echo)
        }
        Reply::Not(slip) => {
            show_slip(rt, line, echo, slip, told.place)?;
            Ok(echo)
        }
        Reply::Asks => answer_asked(rt, after, table, names, texts, line, echo, order),
    }
}
