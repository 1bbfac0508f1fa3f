// Lines that ask of one literal, of the marks and of the readings to blame.

ghost use Rattle.std.specs.Prelude.{◌≡◌, ◌≢◌, ◌/◌, ◌<◌, length};
ghost use Rattle.names.specs.Names.{table_length};

use board::asking::Standing;
use orders::Desk;
use orders::order::Order;
use saying::pieces::{say, say_comma, say_literal, say_number, say_place, say_symbol};
use saying::premises::{is_held, is_tried, literal_of};
use saying::showing::refuse;
use std::io;

// What settle leaves in the place of a literal that is not derived: the table of ranks holds this number.
const NO_RANK: u16 = 65535;

// How a literal stands.
pub fn ask(rt: &impl Print, desk: Desk, table: &[i16], names: &[u8], l: i16) -> io::Result<()>
    requires { length names.now ≡ table_length }
{
    let board = desk.board;
    let standing = match board::asking::ask(board, table, desk.furnace, l) {
        Ok(standing) => standing,
        Err(why) => return refuse(rt, Order::Ask, why),
    };
    say(rt, b"  ")?;
    say_literal(rt, names, l)?;
    match standing {
        Standing::Stands => say(rt, b" stands\n"),
        Standing::RuledOut => say(rt, b" is ruled out\n"),
        Standing::Conflict => say(rt, b" is in conflict\n"),
        Standing::Open => say(rt, b" is open\n"),
    }
}

// The literals that are marked, or that there are none.
fn say_marked(rt: &impl Print, names: &[u8], marks: &[u8]) -> io::Result<()>
    requires { length names.now ≡ table_length }
{
    let mut count = 0;
    for (p, mark) in marks.iter().enumerate() {
        if *mark != 0 {
            say_comma(rt, count)?;
            say_place(rt, names, p)?;
            count += 1;
        }
    }
    if count == 0 {
        say(rt, b"the rules alone")?;
    }
    say(rt, b"\n")
}

// The premises that a literal stands on.
pub fn ground(rt: &impl Print, desk: Desk, table: &[i16], names: &[u8], l: i16) -> io::Result<()>
    requires { length names.now ≡ table_length }
{
    let board = desk.board;
    let mut marks = [0u8; 400];
    match board::grounds::ground(board, table, desk.furnace, l, &mut marks) {
        Err(why) => refuse(rt, Order::Ground, why),
        Ok(()) => {
            say(rt, b"  ")?;
            say_literal(rt, names, l)?;
            say(rt, b" stands on ")?;
            say_marked(rt, names, &marks)
        }
    }
}

// The premises to blame for a conflict.
pub fn blame(rt: &impl Print, desk: Desk, table: &[i16], names: &[u8]) -> io::Result<()>
    requires { length names.now ≡ table_length }
{
    let board = desk.board;
    let mut marks = [0u8; 400];
    match board::grounds::blame(board, table, desk.furnace, &mut marks) {
        Err(why) => refuse(rt, Order::Blame, why),
        Ok(()) => {
            say(rt, b"  to blame: ")?;
            say_marked(rt, names, &marks)
        }
    }
}

// How a derived literal came up: tried, held or by a rule.
fn say_way(rt: &impl Print, desk: Desk, l: i16, rank: u16) -> io::Result<()> {
    if is_tried(desk, l) {
        return say(rt, b", held on trial");
    }
    if is_held(desk, l) {
        return say(rt, b", held");
    }
    say(rt, b", rank ")?;
    say_number(rt, rank as usize)
}

// A symbol and how its literal makes it: it stands, or it is ruled out.
pub fn say_derived(rt: &impl Print, names: &[u8], l: i16) -> io::Result<()>
    requires { length names.now ≡ table_length }
{
    say_symbol(rt, names, literals::symbol(l))?;
    if l < 0 {
        return say(rt, b" is ruled out");
    }
    say(rt, b" stands")
}

// The place of the opposite of a place's literal.
pub fn opposite_place(p: usize) -> usize
    requires { p < 400 }
    ensures { (result < 400) × (result / 2 ≡ p / 2) × (result ≢ p) }
{
    if p % 2 == 0 { p + 1 } else { p - 1 }
}

// The mark of a derived literal, by its place.
fn say_mark(
    rt: &impl Print,
    desk: Desk,
    names: &[u8],
    p: usize,
    rank: u16,
    opposed: bool,
) -> io::Result<()>
    requires { (length names.now ≡ table_length) × (p < 400) }
{
    let l = literal_of(p);
    say(rt, b"  ")?;
    say_derived(rt, names, l)?;
    say_way(rt, desk, l, rank)?;
    if opposed {
        say(rt, b", in conflict")?;
    }
    say(rt, b"\n")
}

// The marks of ranks, a line each, or that there are none.
fn say_marks(rt: &impl Print, desk: Desk, names: &[u8], ranks: &[u16]) -> io::Result<()>
    requires { (length names.now ≡ table_length) × (length ranks.now ≡ 400) }
{
    if ranks.iter().all(|rank| *rank == NO_RANK) {
        return say(rt, b"  nothing stands, nothing is ruled out\n");
    }
    for (p, rank) in ranks.iter().enumerate() {
        if *rank != NO_RANK {
            let opposed = ranks[opposite_place(p)] != NO_RANK;
            say_mark(rt, desk, names, p, *rank, opposed)?;
        }
    }
    Ok(())
}

// All that stands and all that is ruled out.
pub fn marks(rt: &impl Print, desk: Desk, table: &[i16], names: &[u8]) -> io::Result<()>
    requires { length names.now ≡ table_length }
{
    let board = desk.board;
    let mut labels = [0u8; 200];
    let mut ranks = [NO_RANK; 400];
    let mut supports = [0u16; 400];
    match board::settling::settle(
        board,
        table,
        desk.furnace,
        &mut labels,
        &mut ranks,
        &mut supports,
    ) {
        Err(why) => refuse(rt, Order::Marks, why),
        Ok(()) => say_marks(rt, desk, names, &ranks),
    }
}
