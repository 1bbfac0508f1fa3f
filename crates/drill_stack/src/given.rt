// The furnace and the literal that a call is given: 16, 2, then 10 for push, 20 for pop, 11 and 21 for withdraw.

use crate::desks::{Desk, bare, empty, single, stacked};
use crate::telling::every;
use board::Board;
use report::boards;
use report::boards::with_second;
use std::io;

// Furnace 1 holds 1 and 3, furnace 2 holds -4.
fn held() -> Board {
    with_second(boards::both(), 7)
}

// Of these 3 and -4 are stacked.
fn tried() -> Desk {
    stacked(held(), single(3), single(-4))
}

// By furnace 1: a literal that is not held; one that is held and not stacked; the one that is stacked, its opposite, and the other furnace's. By
// furnace 2: the stacked one, and two that only the other holds. "push as hold"; "21 for withdrawing a stacked premise, after 11".
fn literals(rt: &impl Print) -> io::Result<()> {
    every(rt, tried(), 1, 2)?;
    every(rt, tried(), 1, 1)?;
    every(rt, tried(), 1, 3)?;
    every(rt, tried(), 1, -3)?;
    every(rt, tried(), 1, -4)?;
    every(rt, tried(), 2, -4)?;
    every(rt, tried(), 2, 1)?;
    every(rt, tried(), 2, 3)
}

// 3 and -3 are held and 3 is stacked: -3 may be withdrawn, and a pop leaves it.
fn opposites(rt: &impl Print) -> io::Result<()> {
    every(rt, stacked(boards::clash(), single(3), empty()), 1, -3)
}

// 3 is held by both furnaces and stacked by furnace 1 alone: the other withdraws it, and has nothing to pop.
fn own_stack(rt: &impl Print) -> io::Result<()> {
    let d = stacked(
        with_second(boards::with(boards::none(), 4), 4),
        single(3),
        empty(),
    );
    every(rt, d, 1, 3)?;
    every(rt, d, 2, 3)
}

// 2 for a literal of no symbol of the board's; a pop is given none.
fn off_board(rt: &impl Print) -> io::Result<()> {
    every(rt, tried(), 1, 0)?;
    every(rt, tried(), 1, 5)?;
    every(rt, tried(), 1, -5)?;
    every(rt, tried(), 1, -32768)?;
    every(rt, tried(), 2, 0)
}

// 16 for a furnace that there is not. It is ahead of 2, of 10 and 21, and of 20.
fn furnaces(rt: &impl Print) -> io::Result<()> {
    every(rt, tried(), 0, 2)?;
    every(rt, tried(), 3, 2)?;
    every(rt, tried(), 255, 2)?;
    every(rt, tried(), 3, 0)?;
    every(rt, tried(), 3, 3)?;
    every(rt, bare(held()), 0, 1)
}

// "20, after 16, for pop on an empty stack": both are empty, and the other has one. A premise that is not stacked is withdrawn.
fn nothing_to_pop(rt: &impl Print) -> io::Result<()> {
    every(rt, bare(held()), 1, 1)?;
    every(rt, bare(held()), 2, -4)?;
    every(rt, bare(held()), 1, 0)?;
    every(rt, stacked(held(), empty(), single(-4)), 1, 3)?;
    every(rt, stacked(held(), single(3), empty()), 2, -4)
}

pub fn run(rt: &impl Print) -> io::Result<()> {
    literals(rt)?;
    opposites(rt)?;
    own_stack(rt)?;
    off_board(rt)?;
    furnaces(rt)?;
    nothing_to_pop(rt)
}
