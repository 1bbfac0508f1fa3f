// Boards with a record to start from.

ghost use Rattle.std.specs.Prelude.{◌≤◌, length};

use board::Board;
use report::boards::{blank, with, with_second};
use stack::{Stack, Stacks};

// What a step is given and what it hands on: a board, and the record of its stacks.
#[derive(Clone, Copy)]
pub struct Desk {
    pub board: Board,
    pub stacks: Stacks,
}

// A stack that says that it has so many literals: these, and then zeros.
pub fn counting(count: u16, front: &[i16]) -> Stack
    requires { length front.now ≤ 400 }
{
    let mut literals = [0; 400];
    literals[..front.len()].copy_from_slice(front);
    Stack { count, literals }
}

pub fn empty() -> Stack {
    counting(0, &[])
}

// A stack of one literal.
pub fn single(l: i16) -> Stack {
    counting(1, &[l])
}

// The stack with another number in its last place.
pub fn with_last(stack: Stack, l: i16) -> Stack {
    let mut next = stack;
    next.literals[399] = l;
    next
}

// The stack with another count.
pub fn with_count(stack: Stack, count: u16) -> Stack {
    let mut next = stack;
    next.count = count;
    next
}

pub fn record(first: Stack, second: Stack) -> Stacks {
    Stacks { first, second }
}

pub fn stacked(board: Board, first: Stack, second: Stack) -> Desk {
    Desk {
        board,
        stacks: record(first, second),
    }
}

// A board with nothing on either stack.
pub fn bare(board: Board) -> Desk {
    stacked(board, empty(), empty())
}

// Both furnaces hold 1, -2 and 3 of three symbols.
pub fn alike() -> Board {
    let first = with(with(with(blank(3, 0, 0), 0), 3), 4);
    with_second(with_second(with_second(first, 0), 3), 4)
}
