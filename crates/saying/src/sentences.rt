// The sentences of refusals and of lines that are not taken.

use crate::pieces::{say, say_number};
use literals::refusal::Refusal;
use orders::Slip;
use orders::order::Order;
use std::io;

// Refusal 2.
fn say_bad_literal(rt: &impl Print, order: Order) -> io::Result<()> {
    match order {
        Order::Open => say(rt, b"a board has 1 to 200 symbols\n"),
        _ => say(rt, b"no symbol of the board has this number\n"),
    }
}

// Refusal 11.
fn say_not_held(rt: &impl Print, order: Order) -> io::Result<()> {
    match order {
        Order::Least => say(rt, b"not all of these are held\n"),
        _ => say(rt, b"it is not held\n"),
    }
}

// Refusal 12.
fn say_nothing_to_show(rt: &impl Print, order: Order) -> io::Result<()> {
    match order {
        Order::Why => say(rt, b"neither it nor its opposite is derived\n"),
        Order::Blame => say(rt, b"there is no conflict\n"),
        _ => say(rt, b"it is not derived\n"),
    }
}

// Why a call is refused, with its number. Those of formula bytes and of tables that are lent come up in no line.
pub fn say_refusal(rt: &impl Print, order: Order, why: Refusal) -> io::Result<()> {
    say(rt, b"refused ")?;
    say_number(rt, u8::from(why) as usize)?;
    say(rt, b": ")?;
    match why {
        Refusal::BadBoard => say(rt, b"no board is open\n"),
        Refusal::BadLiteral => say_bad_literal(rt, order),
        Refusal::TooDeep => say(rt, b"an operand stands deeper than 16\n"),
        Refusal::TooManySymbols => say(rt, b"more than 8 different symbols\n"),
        Refusal::NoAssignment => say(rt, b"nothing satisfies it\n"),
        Refusal::TableFull => say(rt, b"no room for its rows\n"),
        Refusal::AlreadyHeld => say(rt, b"it is held already\n"),
        Refusal::NotHeld => say_not_held(rt, order),
        Refusal::NothingToShow => say_nothing_to_show(rt, order),
        Refusal::BadFurnace => say(rt, b"the furnaces are 1 and 2\n"),
        Refusal::BadCandidates => say(rt, b"at most 12 readings, each once\n"),
        Refusal::ConflictStays => say(rt, b"the conflict stays without all of these\n"),
        Refusal::BadPositions => say(rt, b"a valve has 2 to 7 positions, and shares none\n"),
        Refusal::EmptyStack => say(rt, b"nothing is on trial\n"),
        Refusal::StackedPremise => say(rt, b"it is on trial: pop takes it back\n"),
        _ => say(rt, b"it cannot be done\n"),
    }
}

// Why a line is not taken.
pub fn say_slip(rt: &impl Print, slip: Slip) -> io::Result<()> {
    say(rt, b"not taken: ")?;
    match slip {
        Slip::UnknownWord => say(
            rt,
            b"no line begins with this word; help lists those that do\n",
        ),
        Slip::NumberDue => say(rt, b"a number is due here\n"),
        Slip::SymbolDue => say(rt, b"a symbol is due here, by its number or its name\n"),
        Slip::UnknownName => say(rt, b"no symbol has this name\n"),
        Slip::NameDue => say(
            rt,
            b"a name is due here: 3 to 24 letters, digits and _, a letter first\n",
        ),
        Slip::NameTaken => say(rt, b"another symbol has this name\n"),
        Slip::MarksDue => say(
            rt,
            b"marks are due here, 0 or 1: a word for each position of the first valve, a mark for each of the second\n",
        ),
        Slip::WordTooMany => say(rt, b"nothing more is due here\n"),
        Slip::LineTooLong => say(rt, b"the line has more than 500 bytes\n"),
    }
}
