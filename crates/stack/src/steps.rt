// The four calls that are lent the record: open, withdraw, push and pop.

ghost use Rattle.std.specs.Prelude.{◌≡◌, Err};
ghost use Rattle.stack.specs.Steps.{opened_with, withdrawn_with, pushed, popped};

use crate::record::{empty_stacks, less_top, on_top, stack_of, top_of};
use crate::testing::{good_stacks, is_stacked};
use crate::{Stacks, Step};
use board::testing::{good, is_furnace};
use board::{Board, Change};
use literals::refusal::Refusal;

fn refused(board: Board, stacks: Stacks, why: Refusal) -> Step
    ensures { result ≡ record { change = record { outcome = Err why; board = board }; stacks = stacks } }
{
    Step {
        change: Change {
            outcome: Err(why),
            board,
        },
        stacks,
    }
}

// Opens a board of so many symbols, and empties the stacks.
pub fn open(symbols: usize, stacks: Stacks) -> Step
    ensures { result ≡ opened_with symbols stacks }
{
    let change = board::changes::open(symbols);
    let outcome = change.outcome;
    let next = match outcome {
        Ok(()) => empty_stacks(),
        Err(_) => stacks,
    };
    Step {
        change,
        stacks: next,
    }
}

// Takes a literal that is not stacked out of a furnace's premises.
pub fn withdraw(board: Board, table: &[i16], stacks: Stacks, furnace: u8, l: i16) -> Step
    ensures { result ≡ withdrawn_with table.now board stacks furnace l }
{
    if !good_stacks(board, stacks) {
        return refused(board, stacks, Refusal::BadBoard);
    }
    let change = board::changes::withdraw(board, table, furnace, l);
    let outcome = change.outcome;
    match outcome {
        Err(why) => refused(board, stacks, why),
        Ok(()) => {
            if is_stacked(stack_of(stacks, furnace), l) {
                return refused(board, stacks, Refusal::StackedPremise);
            }
            Step { change, stacks }
        }
    }
}

// Holds a literal for a furnace and puts it on top of its stack.
pub fn push(board: Board, table: &[i16], stacks: Stacks, furnace: u8, l: i16) -> Step
    ensures { result ≡ pushed table.now board stacks furnace l }
{
    if !good_stacks(board, stacks) {
        return refused(board, stacks, Refusal::BadBoard);
    }
    let change = board::changes::hold(board, table, furnace, l);
    let outcome = change.outcome;
    match outcome {
        Err(why) => refused(board, stacks, why),
        Ok(()) => Step {
            change,
            stacks: on_top(stacks, furnace, l),
        },
    }
}

// Withdraws the top of a furnace's stack.
pub fn pop(board: Board, table: &[i16], stacks: Stacks, furnace: u8) -> Step
    ensures { result ≡ popped table.now board stacks furnace }
{
    if !good_stacks(board, stacks) {
        return refused(board, stacks, Refusal::BadBoard);
    }
    if !good(board, table) {
        return refused(board, stacks, Refusal::BadBoard);
    }
    if !is_furnace(furnace) {
        return refused(board, stacks, Refusal::BadFurnace);
    }
    let stack = stack_of(stacks, furnace);
    if stack.count == 0 {
        return refused(board, stacks, Refusal::EmptyStack);
    }
    let p = literals::place(top_of(stack));
    Step {
        change: Change {
            outcome: Ok(()),
            board: board::changes::with_flag(board, furnace, p, false),
        },
        stacks: less_top(stacks, furnace),
    }
}
