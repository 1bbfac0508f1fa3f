// Names of symbols: a table of them, and formula text in which names stand for numbers.
#![tactic(auto)]

pub mod naming;
pub mod replacing;
pub mod slots;
