// A line taken: the call that it is, carried out on the board, the table and the record.

ghost use Rattle.std.specs.Prelude.{◌≡◌, ◌≤◌, length};
ghost use Rattle.names.specs.Names.{table_length};
ghost use Rattle.names.specs.Replacing.{replaced};
ghost use Rattle.promises.specs.Calls.{adds_text};
ghost use Rattle.orders.specs.Lines.{most_bytes, open_line, name_line, rule_line, literal_call, literal_line, pop_line, valve_line, pairs_line};
ghost use Rattle.orders.specs.Lines.{pairs_entered, second_valve, furnace_line, opening, naming, calling, ordered_by};
ghost use Rattle.orders.specs.States.{state_of, ordered, simply, reply_of, named_reply, worked, work_reply, Does};

use crate::marks::{pairs_in, table_fits};
use crate::order::{Order, order_of};
use crate::reading::{literal_in, number_in, symbol_in};
use crate::words::{ends_at, rest, word};
use crate::{Desk, Reply, Slip, Taken, Told};
use board::Outcome;
use board::rules::{Addition, NO_PLACE};
use literals::refusal::Refusal;
use names::naming::{SYMBOLS, WIDTH, is_name, slot_of};
use names::replacing::replace;
use names::slots::put;
use stack::Step;

// The most bytes of a line.
pub const MOST_BYTES: usize = 500;

// Which of the three calls a line with one literal is.
#[derive(Clone, Copy)]
pub enum LiteralCall {
    Hold,
    Drop,
    Push,
}

// ---- what a line comes to

fn reply_of(outcome: Outcome) -> Reply
    ensures { result ≡ reply_of outcome }
{
    match outcome {
        Ok(()) => Reply::Done,
        Err(why) => Reply::Refused(why),
    }
}

fn told(reply: Reply, place: usize) -> Told
    ensures { result ≡ record { reply = reply; place = place; added = 0 } }
{
    Told {
        reply,
        place,
        added: 0,
    }
}

// A line that leaves the desk as it is, or changes the furnace alone.
fn simple(desk: Desk, reply: Reply) -> Taken
    ensures { result ≡ record { desk = desk; told = simply reply } }
{
    Taken {
        desk,
        told: told(reply, NO_PLACE),
    }
}

// A line that is not taken, by the word at fault. The lines below match on what a word says and have no `?`: each answers the desk beside the slip, which
// is no Result.
fn slip(desk: Desk, why: Slip, word: usize) -> Taken
    ensures { result ≡ record { desk = desk; told = record { reply = Reply.Not why; place = word; added = 0 } } }
{
    Taken {
        desk,
        told: told(Reply::Not(why), word),
    }
}

// A call that is lent the record.
fn of_step(desk: Desk, step: Step) -> Taken
    ensures { result ≡ record {
      desk = record { board = step.change.board; stacks = step.stacks; furnace = desk.furnace };
      told = simply (reply_of step.change.outcome);
    } }
{
    let change = step.change;
    let board = change.board;
    let stacks = step.stacks;
    let next = Desk {
        board,
        stacks,
        furnace: desk.furnace,
    };
    let outcome = change.outcome;
    simple(next, reply_of(outcome))
}

// A call that adds rules.
fn of_addition(desk: Desk, addition: Addition) -> Taken
    ensures { result ≡ record {
      desk = record { board = addition.board; stacks = desk.stacks; furnace = desk.furnace };
      told = record { reply = reply_of addition.outcome; place = addition.place; added = addition.added };
    } }
{
    let board = addition.board;
    let stacks = desk.stacks;
    let outcome = addition.outcome;
    Taken {
        desk: Desk {
            board,
            stacks,
            furnace: desk.furnace,
        },
        told: Told {
            reply: reply_of(outcome),
            place: addition.place,
            added: addition.added,
        },
    }
}

// ---- the desk's own: a new board, a name, a furnace

// Opens a board, forgets the names and works furnace 1; a refused open leaves everything.
fn open(desk: Desk, names: &mut [u8], symbols: usize, table: &[i16]) -> Taken
    requires { length names.old ≡ table_length }
    ensures { Does (state_of desk table.now names.old) (state_of result.desk table.now names.new)
        (opening symbols) result.told }
{
    let before = desk.stacks;
    let step = stack::steps::open(symbols, before);
    let change = step.change;
    let outcome = change.outcome;
    match outcome {
        Err(why) => simple(desk, Reply::Refused(why)),
        Ok(()) => {
            put(names, b"");
            let board = change.board;
            let stacks = step.stacks;
            let next = Desk {
                board,
                stacks,
                furnace: 1,
            };
            simple(next, Reply::Done)
        }
    }
}

fn open_line(desk: Desk, table: &[i16], names: &mut [u8], line: &[u8]) -> Taken
    requires { length names.old ≡ table_length }
    ensures { Does (state_of desk table.now names.old) (state_of result.desk table.now names.new)
        (open_line line.now) result.told }
{
    match number_in(word(line, 1)) {
        Err(why) => slip(desk, why, 1),
        Ok(n) => {
            if !ends_at(line, 2) {
                return slip(desk, Slip::WordTooMany, 2);
            }
            open(desk, names, n, table)
        }
    }
}

// What naming a symbol comes to. Nothing is known of the board here: it may count more symbols than there are names for.
fn judge_name(symbols: usize, names: &[u8], symbol: usize, given: &[u8]) -> Told
    requires { length names.now ≡ table_length }
    ensures { result ≡ named_reply symbols names.now symbol given.now }
{
    if symbols == 0 {
        return told(Reply::Refused(Refusal::BadBoard), NO_PLACE);
    }
    if symbol < 1 {
        return told(Reply::Refused(Refusal::BadLiteral), NO_PLACE);
    }
    if symbols < symbol {
        return told(Reply::Refused(Refusal::BadLiteral), NO_PLACE);
    }
    if SYMBOLS < symbol {
        return told(Reply::Refused(Refusal::BadLiteral), NO_PLACE);
    }
    match slot_of(names, given) {
        Some(slot) if slot + 1 != symbol => told(Reply::Not(Slip::NameTaken), 2),
        _ => told(Reply::Done, NO_PLACE),
    }
}

// Gives a symbol a name.
fn name(desk: Desk, table: &[i16], names: &mut [u8], symbol: usize, given: &[u8]) -> Taken
    requires { length names.old ≡ table_length }
    ensures { Does (state_of desk table.now names.old) (state_of result.desk table.now names.new)
        (naming symbol given.now) result.told }
{
    let board = desk.board;
    let judged = judge_name(board.symbols, names, symbol, given);
    let reply = judged.reply;
    if let Reply::Done = reply {
        let at = WIDTH * (symbol - 1);
        put(&mut names[at..at + WIDTH], given);
    }
    Taken { desk, told: judged }
}

fn name_line(desk: Desk, table: &[i16], names: &mut [u8], line: &[u8]) -> Taken
    requires { length names.old ≡ table_length }
    ensures { Does (state_of desk table.now names.old) (state_of result.desk table.now names.new)
        (name_line names.old line.now) result.told }
{
    match symbol_in(names, word(line, 1)) {
        Err(why) => slip(desk, why, 1),
        Ok(symbol) => {
            let given = word(line, 2);
            if !is_name(given) {
                return slip(desk, Slip::NameDue, 2);
            }
            if !ends_at(line, 3) {
                return slip(desk, Slip::WordTooMany, 3);
            }
            name(desk, table, names, symbol, given)
        }
    }
}

// Chooses the furnace to work.
fn work(desk: Desk, furnace: usize) -> Taken
    ensures { result ≡ record {
      desk = record { board = desk.board; stacks = desk.stacks; furnace = worked desk.furnace furnace };
      told = simply (work_reply furnace);
    } }
{
    let board = desk.board;
    let stacks = desk.stacks;
    if furnace == 1 {
        let next = Desk {
            board,
            stacks,
            furnace: 1,
        };
        return simple(next, Reply::Done);
    }
    if furnace == 2 {
        let next = Desk {
            board,
            stacks,
            furnace: 2,
        };
        return simple(next, Reply::Done);
    }
    simple(desk, Reply::Refused(Refusal::BadFurnace))
}

fn furnace_line(desk: Desk, table: &[i16], names: &[u8], line: &[u8]) -> Taken
    ensures { Does (state_of desk table.now names.now) (state_of result.desk table.now names.now)
        (furnace_line line.now) result.told }
{
    match number_in(word(line, 1)) {
        Err(why) => slip(desk, why, 1),
        Ok(n) => {
            if !ends_at(line, 2) {
                return slip(desk, Slip::WordTooMany, 2);
            }
            work(desk, n)
        }
    }
}

// ---- rules

// Adds the rule of a text, its names replaced in the room that is lent for it.
fn add_typed(desk: Desk, table: &mut [i16], names: &[u8], typed: &[u8], room: &mut [u8]) -> Taken
    requires { (length names.now ≡ table_length) × (length room.old ≡ length typed.now) }
    ensures { Does (state_of desk table.old names.now) (state_of result.desk table.new names.now)
        (calling (adds_text (length table.old) (replaced names.now typed.now))) result.told }
{
    put(room, typed);
    replace(room, names);
    let board = desk.board;
    let addition = text::adding::add_text(board, table, room);
    of_addition(desk, addition)
}

fn rule_line(desk: Desk, table: &mut [i16], names: &[u8], line: &[u8]) -> Taken
    requires { (length names.now ≡ table_length) × (length line.now ≤ most_bytes) }
    ensures { Does (state_of desk table.old names.now) (state_of result.desk table.new names.now)
        (rule_line (length table.old) names.now line.now) result.told }
{
    let typed = rest(line, 1);
    let n = typed.len();
    let mut room = [0u8; 500];
    add_typed(desk, table, names, typed, &mut room[..n])
}

fn valve_line(desk: Desk, table: &mut [i16], names: &[u8], line: &[u8]) -> Taken
    requires { length names.now ≡ table_length }
    ensures { Does (state_of desk table.old names.now) (state_of result.desk table.new names.now)
        (valve_line (length table.old) names.now line.now) result.told }
{
    match symbol_in(names, word(line, 1)) {
        Err(why) => slip(desk, why, 1),
        Ok(first) => match number_in(word(line, 2)) {
            Err(why) => slip(desk, why, 2),
            Ok(count) => {
                if !ends_at(line, 3) {
                    return slip(desk, Slip::WordTooMany, 3);
                }
                let board = desk.board;
                let addition = positions::variables::add_positions(board, table, first, count);
                of_addition(desk, addition)
            }
        },
    }
}

// A pair table of two valves that were read, by the marks of its line.
fn enter_pairs(
    desk: Desk,
    table: &mut [i16],
    names: &[u8],
    line: &[u8],
    first: usize,
    count: usize,
    other: usize,
    others: usize,
) -> Taken
    ensures { Does (state_of desk table.old names.now) (state_of result.desk table.new names.now)
        (pairs_entered (length table.old) line.now first count other others) result.told }
{
    if !table_fits(line, count, others) {
        return slip(desk, Slip::MarksDue, 5);
    }
    let allowed = pairs_in(line, count, others);
    let board = desk.board;
    let addition = positions::pairs::add_pairs(board, table, first, count, other, others, allowed);
    of_addition(desk, addition)
}

// The second valve of a pair table, the first being read.
fn second_valve(
    desk: Desk,
    table: &mut [i16],
    names: &[u8],
    line: &[u8],
    first: usize,
    count: usize,
) -> Taken
    requires { length names.now ≡ table_length }
    ensures { Does (state_of desk table.old names.now) (state_of result.desk table.new names.now)
        (second_valve (length table.old) names.now line.now first count) result.told }
{
    match symbol_in(names, word(line, 3)) {
        Err(why) => slip(desk, why, 3),
        Ok(other) => match number_in(word(line, 4)) {
            Err(why) => slip(desk, why, 4),
            Ok(others) => { enter_pairs(desk, table, names, line, first, count, other, others) }
        },
    }
}

fn pairs_line(desk: Desk, table: &mut [i16], names: &[u8], line: &[u8]) -> Taken
    requires { length names.now ≡ table_length }
    ensures { Does (state_of desk table.old names.now) (state_of result.desk table.new names.now)
        (pairs_line (length table.old) names.now line.now) result.told }
{
    match symbol_in(names, word(line, 1)) {
        Err(why) => slip(desk, why, 1),
        Ok(first) => match number_in(word(line, 2)) {
            Err(why) => slip(desk, why, 2),
            Ok(count) => second_valve(desk, table, names, line, first, count),
        },
    }
}

// ---- premises

// Holds, withdraws or pushes a literal.
fn act(desk: Desk, table: &[i16], names: &[u8], which: LiteralCall, l: i16) -> Taken
    ensures { Does (state_of desk table.now names.now) (state_of result.desk table.now names.now)
        (calling (literal_call which (length table.now) desk.furnace l)) result.told }
{
    let board = desk.board;
    let stacks = desk.stacks;
    match which {
        LiteralCall::Hold => {
            let change = board::changes::hold(board, table, desk.furnace, l);
            of_step(desk, Step { change, stacks })
        }
        LiteralCall::Drop => of_step(
            desk,
            stack::steps::withdraw(board, table, stacks, desk.furnace, l),
        ),
        LiteralCall::Push => of_step(
            desk,
            stack::steps::push(board, table, stacks, desk.furnace, l),
        ),
    }
}

fn literal_line(desk: Desk, table: &[i16], names: &[u8], line: &[u8], which: LiteralCall) -> Taken
    requires { length names.now ≡ table_length }
    ensures { Does (state_of desk table.now names.now) (state_of result.desk table.now names.now)
        (literal_line (literal_call which (length table.now) desk.furnace) names.now line.now) result.told }
{
    match literal_in(names, word(line, 1)) {
        Err(why) => slip(desk, why, 1),
        Ok(l) => {
            if !ends_at(line, 2) {
                return slip(desk, Slip::WordTooMany, 2);
            }
            act(desk, table, names, which, l)
        }
    }
}

fn pop_line(desk: Desk, table: &[i16], names: &[u8], line: &[u8]) -> Taken
    ensures { Does (state_of desk table.now names.now) (state_of result.desk table.now names.now)
        (pop_line (length table.now) desk.furnace line.now) result.told }
{
    if !ends_at(line, 1) {
        return slip(desk, Slip::WordTooMany, 1);
    }
    let board = desk.board;
    let stacks = desk.stacks;
    of_step(desk, stack::steps::pop(board, table, stacks, desk.furnace))
}

// ---- every line

// A line of at most 500 bytes, by its order.
fn take_order(desk: Desk, table: &mut [i16], names: &mut [u8], line: &[u8], order: Order) -> Taken
    requires { (length names.old ≡ table_length) × (length line.now ≤ most_bytes) }
    ensures { Does (state_of desk table.old names.old) (state_of result.desk table.new names.new)
        (ordered_by order (length table.old) desk.furnace names.old line.now) result.told }
{
    match order {
        Order::Open => open_line(desk, table, names, line),
        Order::Name => name_line(desk, table, names, line),
        Order::Rule => rule_line(desk, table, names, line),
        Order::Hold => literal_line(desk, table, names, line, LiteralCall::Hold),
        Order::Drop => literal_line(desk, table, names, line, LiteralCall::Drop),
        Order::Push => literal_line(desk, table, names, line, LiteralCall::Push),
        Order::Pop => pop_line(desk, table, names, line),
        Order::Valve => valve_line(desk, table, names, line),
        Order::Pairs => pairs_line(desk, table, names, line),
        Order::Furnace => furnace_line(desk, table, names, line),
        Order::Unknown => slip(desk, Slip::UnknownWord, 0),
        Order::Nothing => simple(desk, Reply::Nothing),
        _ => simple(desk, Reply::Asks),
    }
}

// Takes a line.
pub fn take(desk: Desk, table: &mut [i16], names: &mut [u8], line: &[u8]) -> Taken
    requires { length names.old ≡ table_length }
    ensures { Does (state_of desk table.old names.old) (state_of result.desk table.new names.new)
        (ordered (state_of desk table.old names.old) line.now) result.told }
{
    if MOST_BYTES < line.len() {
        return slip(desk, Slip::LineTooLong, 0);
    }
    let order = order_of(word(line, 0));
    take_order(desk, table, names, line, order)
}
