// What a table of ranks tells: the labels, the symbol that blame takes, the supports, and the premises that literals reach. A table of ranks has one
// number for each place; its length is the number of places. `board` tests the rows and cuts every slice to its exact length first; `rounds` lends
// the index of those rows too.
#![tactic(auto)]

pub mod labels;
pub mod reach;
pub mod supports;

// No rank, no support: the tables that C lends hold this number.
pub const NONE: u16 = 65535;

// The most places that a board has.
pub const PLACES: usize = 400;
