// Opening with the record: "a good open empties the stacks", every place of them, and a refused one leaves them. The refusal is 2.

use crate::desks::{counting, record, single, with_last};
use crate::telling::open;
use std::io;

// A record that goes with some board: 3 on the stack of furnace 1, -4 on that of furnace 2.
fn counts(rt: &impl Print) -> io::Result<()> {
    let tries = record(single(3), single(-4));
    open(rt, 4, tries)?;
    open(rt, 1, tries)?;
    open(rt, 200, tries)?;
    open(rt, 0, tries)?;
    open(rt, 201, tries)?;
    open(rt, 18446744073709551615, tries)
}

// "1 also, but not at open": a repeated literal, and more literals than there are places.
fn spoilt(rt: &impl Print) -> io::Result<()> {
    let tries = record(counting(2, &[3, 3]), counting(65535, &[0, 77]));
    open(rt, 4, tries)?;
    open(rt, 0, tries)
}

// Numbers beyond the literals of a stack, up to the last place.
fn beyond(rt: &impl Print) -> io::Result<()> {
    let tries = record(counting(0, &[5, -6]), with_last(single(-4), 77));
    open(rt, 4, tries)?;
    open(rt, 201, tries)
}

pub fn run(rt: &impl Print) -> io::Result<()> {
    counts(rt)?;
    spoilt(rt)?;
    beyond(rt)
}
