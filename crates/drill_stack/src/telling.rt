// The calls of `stack`, with what they answer printed after a semicolon. Each is given a desk and hands back the one that it leaves.

use crate::desks::Desk;
use crate::printed;
use report::printing::{counted, text};
use report::{boards, printing};
use stack::{Stacks, Step};
use std::io;

// What a step came to: the board and the record, or why it was refused and whether both are as they were.
fn step(rt: &impl Print, before: Desk, told: Step) -> io::Result<Desk> {
    let change = told.change;
    let outcome = change.outcome;
    let board = change.board;
    let stacks = told.stacks;
    match outcome {
        Err(why) => {
            let same = before.board == board && before.stacks == stacks;
            printing::refused_with(rt, why, same)?;
        }
        Ok(()) => {
            printed::board(rt, board)?;
            printed::stacks(rt, stacks)?;
        }
    }
    Ok(Desk { board, stacks })
}

// The literal that a call is given and the furnace that it names.
fn given(rt: &impl Print, furnace: u8, l: i16) -> io::Result<()> {
    printing::literal(rt, l)?;
    counted(rt, b" for", furnace as usize)
}

pub fn push(rt: &impl Print, d: Desk, table: &[i16], furnace: u8, l: i16) -> io::Result<Desk> {
    let told = stack::steps::push(d.board, table, d.stacks, furnace, l);
    text(rt, b"; push")?;
    given(rt, furnace, l)?;
    step(rt, d, told)
}

pub fn pop(rt: &impl Print, d: Desk, table: &[i16], furnace: u8) -> io::Result<Desk> {
    let told = stack::steps::pop(d.board, table, d.stacks, furnace);
    counted(rt, b"; pop for", furnace as usize)?;
    step(rt, d, told)
}

pub fn withdraw(rt: &impl Print, d: Desk, table: &[i16], furnace: u8, l: i16) -> io::Result<Desk> {
    let told = stack::steps::withdraw(d.board, table, d.stacks, furnace, l);
    text(rt, b"; drop")?;
    given(rt, furnace, l)?;
    step(rt, d, told)
}

// A line: a record, what an open answers, and what it hands back of both.
pub fn open(rt: &impl Print, symbols: usize, stacks: Stacks) -> io::Result<()> {
    let told = stack::steps::open(symbols, stacks);
    let change = told.change;
    let outcome = change.outcome;
    text(rt, b"with")?;
    printed::stacks(rt, stacks)?;
    counted(rt, b"; open", symbols)?;
    printing::outcome(rt, outcome)?;
    printed::board(rt, change.board)?;
    printed::stacks(rt, told.stacks)?;
    printing::end(rt)
}

// Push, pop and withdraw, each on the desk as it is, with the two rows of the journal lent.
fn calls_for(rt: &impl Print, d: Desk, furnace: u8, l: i16) -> io::Result<()> {
    let table = boards::rows();
    push(rt, d, &table, furnace, l)?;
    pop(rt, d, &table, furnace)?;
    withdraw(rt, d, &table, furnace, l)?;
    Ok(())
}

// A line: a desk and the three calls by one furnace.
pub fn every(rt: &impl Print, d: Desk, furnace: u8, l: i16) -> io::Result<()> {
    printed::on(rt, d, 45)?;
    calls_for(rt, d, furnace, l)?;
    printing::end(rt)
}

// The same by both furnaces.
pub fn by_both(rt: &impl Print, d: Desk, l: i16) -> io::Result<()> {
    printed::on(rt, d, 45)?;
    calls_for(rt, d, 1, l)?;
    calls_for(rt, d, 2, l)?;
    printing::end(rt)
}
