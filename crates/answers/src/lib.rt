// What the desk answers to a line: what it did, why it is refused, or what it asks for.
#![tactic(auto)]

pub mod answering;
mod asking;
mod choosing;
mod table;
mod tree;
