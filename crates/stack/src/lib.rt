// Try a reading and take it back: a stack of premises for each furnace, both in one record that a step is lent and changes.
// No heap, and a record of fixed size: the count stands beside the places.
#![tactic(auto)]

mod record;
pub mod steps;
mod testing;

use board::Change;

// The literals that a furnace holds on trial, in the order in which they were pushed: the first `count` of the places, the top last. Each field may
// hold anything: the calls test it.
#[repr(C)]
#[derive(Clone, Copy, PartialEq)]
pub struct Stack {
    pub count: u16,
    pub literals: [i16; 400],
}

// The stack of furnace 1, then that of furnace 2.
#[repr(C)]
#[derive(Clone, Copy, PartialEq)]
pub struct Stacks {
    pub first: Stack,
    pub second: Stack,
}

// What a call that is lent the record answers: what it does to the board, and the record after it, which a refused call hands back too
// (`RefusedUntouched` in `promises`).
#[derive(Clone, Copy)]
pub struct Step {
    pub change: Change,
    pub stacks: Stacks,
}
