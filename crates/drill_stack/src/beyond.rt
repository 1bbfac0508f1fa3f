// What is no fault of a record: numbers beyond the literals of a stack, and the same literals on both stacks.

use crate::desks::{alike, counting, empty, stacked};
use crate::telling::{by_both, every};
use std::io;

// A push writes the first place beyond the literals, a pop puts 0 into the place that it leaves, and neither touches another. A literal that stands
// beyond them is not stacked.
fn left_over(rt: &impl Print) -> io::Result<()> {
    let d = stacked(
        alike(),
        counting(1, &[1, 1, 4, -32768]),
        counting(0, &[7, 2]),
    );
    every(rt, d, 1, 2)?;
    every(rt, d, 1, -2)?;
    every(rt, d, 2, 2)?;
    every(rt, stacked(alike(), counting(1, &[1, 3]), empty()), 1, 3)
}

// Each furnace pops its own top.
fn twice(rt: &impl Print) -> io::Result<()> {
    let d = stacked(alike(), counting(2, &[1, -2]), counting(2, &[-2, 1]));
    by_both(rt, d, 3)
}

pub fn run(rt: &impl Print) -> io::Result<()> {
    left_over(rt)?;
    twice(rt)
}
