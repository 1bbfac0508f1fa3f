// The shift desk's smallest sets: a product over public functions, `board`'s first of all, which sees their contracts and nothing of what is behind
// them.
#![tactic(auto)]

pub mod call;
mod search;
mod writing;

use board::Outcome;

// What listing the smallest sets answers: how many sets were written, 0 where it was refused: `RefusedHandsBack` in `promises` says it of this number.
#[derive(Clone, Copy)]
pub struct Listing {
    pub outcome: Outcome,
    pub count: usize,
}
