// Candidates: the literals that a call is given to choose from, and the sets of them, as numbers whose bit i stands for candidate i.
#![tactic(auto)]

pub mod given;
pub mod sets;

// How many candidates there may be.
pub const MOST_CANDIDATES: usize = 12;
