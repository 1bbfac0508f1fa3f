// Formulae in plain text: units and chains, which call for each other. How far a text keeps the form, the prefix bytes of the formula that it says,
// and the one text that is written of a formula's bytes.
#![tactic(auto)]

pub mod emitting;
pub mod reading;
mod signs;
mod storing;
pub mod wording;
