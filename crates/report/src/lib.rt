// What the programs that try calls print: the parts of a line, which begins with a board and how many numbers of its table are lent. With boards to
// start from, and comparing what a call was given with what it left. A write that fails is handed up, and ends the program. The contracts promise
// that a function is safe and ends; what is printed is held to the programs' stored output.
#![tactic(auto)]

pub mod boards;
pub mod comparing;
pub mod counting;
pub mod pieces;
pub mod printing;
pub mod quoting;
