// Lines that choose among literals: the smallest sets that carry one, and the least to drop.

ghost use Rattle.std.specs.Prelude.{◌≡◌, ◌≤◌, length, IfOk};
ghost use Rattle.names.specs.Names.{table_length};

use candidates::sets::has;
use orders::order::Order;
use orders::reading::literal_in;
use orders::words::{ends_at, word};
use orders::{Desk, Slip};
use saying::pieces::{say, say_comma, say_literal};
use saying::premises::{is_held, literal_of};
use saying::showing::{refuse, show_slip};
use std::io;

// A word of a line that is at fault, and what is wrong with it.
#[derive(Clone, Copy)]
pub struct Fault {
    pub slip: Slip,
    pub word: usize,
}

// Reads the literals of a line from a word on, and answers how many there are. There is room for as many as a furnace can hold, which is more than a
// line has words.
fn gather(names: &[u8], line: &[u8], from: usize, given: &mut [i16]) -> Result<usize, Fault>
    requires { (length names.now ≡ table_length) × (length given.old ≡ 400) × (from ≤ 2) }
    ensures { IfOk result (λ n. n ≤ 400) }
{
    for (k, place) in given.iter_mut().enumerate() {
        let at = from + k;
        if ends_at(line, at) {
            return Ok(k);
        }
        *place = literal_in(names, word(line, at)).map_err(|slip| Fault { slip, word: at })?;
    }
    Ok(given.len())
}

// All that the furnace holds.
fn gather_held(desk: Desk, given: &mut [i16]) -> usize
    requires { length given.old ≡ 400 }
    ensures { result ≤ 400 }
{
    let mut count = 0;
    for p in 0..400 {
        let l = literal_of(p);
        if is_held(desk, l) {
            given[count] = l;
            count += 1;
        }
    }
    count
}

// The literals of a set, or that there are none.
fn say_set(rt: &impl Print, names: &[u8], given: &[i16], set: u16, none: &[u8]) -> io::Result<()>
    requires { length names.now ≡ table_length }
{
    let mut count = 0;
    for (i, l) in given.iter().enumerate() {
        if i < 16 && has(set as usize, i) {
            say_comma(rt, count)?;
            say_literal(rt, names, *l)?;
            count += 1;
        }
    }
    if count == 0 {
        say(rt, none)?;
    }
    say(rt, b"\n")
}

// The least of some literals to drop.
fn say_least(
    rt: &impl Print,
    desk: Desk,
    table: &[i16],
    names: &[u8],
    given: &[i16],
) -> io::Result<()>
    requires { length names.now ≡ table_length }
{
    let board = desk.board;
    let least = least::call::least(board, table, desk.furnace, given);
    let outcome = least.outcome;
    match outcome {
        Err(why) => refuse(rt, Order::Least, why),
        Ok(()) => {
            say(rt, b"  to drop: ")?;
            say_set(
                rt,
                names,
                given,
                least.set,
                b"nothing, there is no conflict",
            )
        }
    }
}

// `least` with the literals of its line, or with all that the furnace holds.
pub fn least_line(
    rt: &impl Print,
    desk: Desk,
    table: &[i16],
    names: &[u8],
    line: &[u8],
    echo: bool,
) -> io::Result<()>
    requires { length names.now ≡ table_length }
{
    let mut given = [0i16; 400];
    if ends_at(line, 1) {
        let count = gather_held(desk, &mut given);
        return say_least(rt, desk, table, names, &given[..count]);
    }
    match gather(names, line, 1, &mut given) {
        Err(fault) => show_slip(rt, line, echo, fault.slip, fault.word),
        Ok(count) => say_least(rt, desk, table, names, &given[..count]),
    }
}

// The sets that carry a literal, a line each.
fn say_sets(rt: &impl Print, names: &[u8], given: &[i16], l: i16, sets: &[u16]) -> io::Result<()>
    requires { length names.now ≡ table_length }
{
    for set in sets {
        say(rt, b"  ")?;
        say_literal(rt, names, l)?;
        say(rt, b" by ")?;
        say_set(rt, names, given, *set, b"the rules alone")?;
    }
    if sets.is_empty() {
        say(rt, b"  ")?;
        say_literal(rt, names, l)?;
        say(rt, b" by no set of these\n")?;
    }
    Ok(())
}

// The smallest sets of some literals that carry one. Of 12 literals no more than 924 sets can be listed, none of them inside another.
fn list_sets(
    rt: &impl Print,
    desk: Desk,
    table: &[i16],
    names: &[u8],
    given: &[i16],
    l: i16,
) -> io::Result<()>
    requires { length names.now ≡ table_length }
{
    let board = desk.board;
    let mut sets = [0u16; 924];
    let listing = smallest::call::smallest(board, table, given, l, &mut sets);
    let outcome = listing.outcome;
    match outcome {
        Err(why) => refuse(rt, Order::Sets, why),
        Ok(()) => {
            let count = listing.count;
            say_sets(rt, names, given, l, &sets[..count])
        }
    }
}

// `sets` with the literal and those to choose from.
pub fn sets_line(
    rt: &impl Print,
    desk: Desk,
    table: &[i16],
    names: &[u8],
    line: &[u8],
    echo: bool,
) -> io::Result<()>
    requires { length names.now ≡ table_length }
{
    let mut given = [0i16; 400];
    match literal_in(names, word(line, 1)) {
        Err(slip) => show_slip(rt, line, echo, slip, 1),
        Ok(l) => match gather(names, line, 2, &mut given) {
            Err(fault) => show_slip(rt, line, echo, fault.slip, fault.word),
            Ok(count) => list_sets(rt, desk, table, names, &given[..count], l),
        },
    }
}
