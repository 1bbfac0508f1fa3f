// DIMACS text: read onto a board, each clause as one rule, and written from the rows in use.
#![tactic(auto)]

mod appending;
mod gathering;
pub mod header;
pub mod reading;
mod sorting;
mod survey;
mod words;
pub mod writing;
