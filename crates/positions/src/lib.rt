// Valves with several positions: position variables, and pair tables between two of them, entered as rules.
#![tactic(auto)]

mod answering;
pub mod pairs;
mod rows;
mod testing;
pub mod variables;
