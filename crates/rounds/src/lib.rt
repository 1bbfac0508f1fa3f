// Boolean constraint propagation by rounds over a lent clause table. A table of ranks has one number for each place; its length is the
// number of places. `board` tests the table and cuts every slice to its exact length first.
#![tactic(auto)]

mod marks;
pub mod propagation;
mod ranks;
mod visits;
