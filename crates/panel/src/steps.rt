// The calls that are lent the record, by value: each hands back what C is told and the record as the call leaves it.

ghost use Rattle.std.specs.Prelude.{◌≡◌};
ghost use Rattle.stack.specs.Steps.{opened_with, withdrawn_with, pushed, popped};
ghost use Rattle.panel.specs.Crossing.{board_in, Narrow, opened_out, step_out};

use crate::crossing::{board_in, board_out, change_out, number_of};
use crate::{PanelBoard, PanelChange};
use board::Change;
use stack::{Stacks, Step};

// What C is told, and the record.
#[derive(Clone, Copy)]
pub struct PanelStep {
    pub change: PanelChange,
    pub stacks: Stacks,
}

// A board that was opened goes to C whether it is refused or not.
fn opened_out(change: Change) -> PanelChange
    requires { Narrow change.board }
    ensures { result ≡ opened_out change }
{
    let outcome = change.outcome;
    let next = change.board;
    PanelChange {
        refusal: number_of(outcome),
        board: board_out(next),
    }
}

pub fn open_step(symbols: u16, stacks: Stacks) -> PanelStep
    ensures { result ≡ record { change = opened_out (opened_with symbols stacks).change; stacks = (opened_with symbols stacks).stacks } }
{
    let step = stack::steps::open(symbols as usize, stacks);
    let change = step.change;
    let left = step.stacks;
    PanelStep {
        change: opened_out(change),
        stacks: left,
    }
}

// What such a call tells C, and the record as it leaves it.
fn step_out(given: PanelBoard, step: Step) -> PanelStep
    requires { Narrow step.change.board }
    ensures { result ≡ step_out given step }
{
    let change = step.change;
    let stacks = step.stacks;
    PanelStep {
        change: change_out(given, change),
        stacks,
    }
}

pub fn withdraw_step(
    given: PanelBoard,
    table: &[i16],
    stacks: Stacks,
    furnace: u8,
    l: i16,
) -> PanelStep
    ensures { result ≡ step_out given (withdrawn_with table.now (board_in given) stacks furnace l) }
{
    let step = stack::steps::withdraw(board_in(given), table, stacks, furnace, l);
    step_out(given, step)
}

pub fn push_step(given: PanelBoard, table: &[i16], stacks: Stacks, furnace: u8, l: i16) -> PanelStep
    ensures { result ≡ step_out given (pushed table.now (board_in given) stacks furnace l) }
{
    let step = stack::steps::push(board_in(given), table, stacks, furnace, l);
    step_out(given, step)
}

pub fn pop_step(given: PanelBoard, table: &[i16], stacks: Stacks, furnace: u8) -> PanelStep
    ensures { result ≡ step_out given (popped table.now (board_in given) stacks furnace) }
{
    let step = stack::steps::pop(board_in(given), table, stacks, furnace);
    step_out(given, step)
}
