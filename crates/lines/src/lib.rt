// One journal command and its line, as bytes.
#![tactic(auto)]

mod commands;
pub mod saying;
