// What the desk says, on standard output: names, lists and carets, the text of rules, and the sentences of refusals and of lines that are not taken.
#![tactic(auto)]

pub mod help;
pub mod pieces;
pub mod premises;
pub mod sentences;
pub mod showing;
pub mod texts;
