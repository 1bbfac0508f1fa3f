// Why a literal stands: its rule, and under it what that rule went by, down to premises.
// No heap: what waits lies in an array, and how many wait is told.

ghost use Rattle.std.specs.Prelude.{◌≡◌, ◌<◌, ◌≤◌, length};
ghost use Rattle.names.specs.Names.{table_length};
ghost use Rattle.saying.specs.Limits.{kept_length};

use crate::asking::{opposite_place, say_derived};
use board::testing::place_on;
use literals::refusal::Refusal;
use orders::Desk;
use orders::order::Order;
use saying::pieces::{say, say_blanks, say_literal, say_number};
use saying::premises::{is_held, is_tried, literal_of};
use saying::showing::refuse;
use saying::texts::say_rule;
use std::io;

// So many lines may wait to be shown: each of 400 literals is gone into once, and has at most seven below it.
const MOST_LINES: usize = 2816;

// No way down the tree is longer, since ranks fall along it.
const DEEPEST: usize = 400;

// A premise.
fn say_premise(rt: &impl Print, desk: Desk, names: &[u8], l: i16) -> io::Result<()>
    requires { length names.now ≡ table_length }
{
    say_literal(rt, names, l)?;
    if is_tried(desk, l) {
        return say(rt, b" is held on trial\n");
    }
    say(rt, b" is held\n")
}

// The line of a literal that is derived. Answers whether it has something below it: a premise has nothing, nor has a literal that was shown before.
fn say_node(
    rt: &impl Print,
    desk: Desk,
    table: &[i16],
    names: &[u8],
    texts: &[u8],
    l: i16,
    again: bool,
) -> io::Result<bool>
    requires { (length names.now ≡ table_length) × (length texts.now ≡ kept_length) }
{
    let board = desk.board;
    let reason = board::asking::explain_numbers(board, table, desk.furnace, l);
    let outcome = reason.outcome;
    if let Err(_) = outcome {
        say_premise(rt, desk, names, l)?;
        return Ok(false);
    }
    say_derived(rt, names, l)?;
    say(rt, b", rank ")?;
    say_number(rt, reason.rank as usize)?;
    if again {
        say(rt, b": as above\n")?;
        return Ok(false);
    }
    say(rt, b": ")?;
    say_rule(rt, texts, reason.rule as usize)?;
    say(rt, b"\n")?;
    Ok(true)
}

// What waits is a depth and a place in one number.
fn waiting_at(depth: usize, p: usize) -> u32
    requires { (depth ≤ 400) × (p < 400) }
{
    (400 * depth + p) as u32
}

// Puts the opposites of a row's other literals behind what waits, the first last, so that it is shown first. Answers how many wait then.
fn put_below(row: &[i16], l: i16, depth: usize, waiting: &mut [u32], count: usize) -> usize
    requires { (length waiting.old ≡ 2816) × (count ≤ 2816) × (depth ≤ 400) }
    ensures { result ≤ 2816 }
{
    let mut next = count;
    for other in row.iter().rev() {
        if *other != l && next < MOST_LINES && literals::in_range(*other, 200) {
            waiting[next] = waiting_at(depth, literals::place(literals::opposite(*other)));
            next += 1;
        }
    }
    next
}

// The tree of a derived literal, by its place.
fn say_tree(
    rt: &impl Print,
    desk: Desk,
    table: &[i16],
    names: &[u8],
    texts: &[u8],
    root: usize,
) -> io::Result<()>
    requires { (length names.now ≡ table_length) × (length texts.now ≡ kept_length) × (root < 400) }
{
    let board = desk.board;
    let mut shown = [false; 400];
    let mut waiting = [0u32; 2816];
    waiting[0] = waiting_at(0, root);
    let mut count = 1;
    let mut left = MOST_LINES;
    // A while: it goes by a stack, on which each line that is shown may put more.
    while 0 < count && 0 < left {
        left -= 1;
        count -= 1;
        let line = &waiting[count];
        let p = *line as usize % 400;
        let depth = *line as usize / 400;
        let l = literal_of(p);
        say_blanks(rt, 2 + 2 * depth)?;
        if say_node(rt, desk, table, names, texts, l, shown[p])? && depth < DEEPEST {
            shown[p] = true;
            let row = board::asking::explain(board, table, desk.furnace, l);
            count = put_below(row, l, depth + 1, &mut waiting, count);
        }
    }
    Ok(())
}

// Whether a literal is derived.
fn is_derived(desk: Desk, table: &[i16], l: i16) -> bool {
    let board = desk.board;
    let reason = board::asking::explain_numbers(board, table, desk.furnace, l);
    let outcome = reason.outcome;
    match outcome {
        Ok(()) => true,
        Err(_) => is_held(desk, l),
    }
}

// Why the literal of a place stands, or its opposite.
fn say_why(
    rt: &impl Print,
    desk: Desk,
    table: &[i16],
    names: &[u8],
    texts: &[u8],
    p: usize,
) -> io::Result<()>
    requires { (length names.now ≡ table_length) × (length texts.now ≡ kept_length) × (p < 400) }
{
    if is_derived(desk, table, literal_of(p)) {
        return say_tree(rt, desk, table, names, texts, p);
    }
    let opposite = opposite_place(p);
    if is_derived(desk, table, literal_of(opposite)) {
        return say_tree(rt, desk, table, names, texts, opposite);
    }
    refuse(rt, Order::Why, Refusal::NothingToShow)
}

// Why a literal stands, or why it is ruled out.
pub fn why(
    rt: &impl Print,
    desk: Desk,
    table: &[i16],
    names: &[u8],
    texts: &[u8],
    l: i16,
) -> io::Result<()>
    requires { (length names.now ≡ table_length) × (length texts.now ≡ kept_length) }
{
    let board = desk.board;
    match place_on(board, table, desk.furnace, l) {
        Err(why) => refuse(rt, Order::Why, why),
        Ok(p) => say_why(rt, desk, table, names, texts, p),
    }
}
