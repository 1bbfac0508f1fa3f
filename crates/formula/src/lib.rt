// A formula in prefix bytes: read, its symbols listed, evaluated. Each operand is read from a part of the byte slice that starts
// after its kind byte, and the depth left falls by one with each operand.
#![tactic(auto)]

pub mod naming;
pub mod reading;
pub mod truth;
