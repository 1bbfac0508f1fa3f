// The board: nine calls and the second ask, each total. A call tests its own input, refuses in the documents' order and then leaves everything as it
// was, or is done and writes only the places named for it.
#![tactic(auto)]

pub mod asking;
pub mod changes;
mod furnaces;
pub mod grounds;
pub mod rules;
pub mod settling;
pub mod testing;

use literals::refusal::Refusal;

// S symbols, the rows of the caller's table in use, the rules accepted since the board was opened, and the premises, a flag for each literal's place:
// those of furnace 1 first, then those of furnace 2. Each field may hold anything: the calls test it.
#[repr(C)]
#[derive(Clone, Copy, PartialEq)]
pub struct Board {
    pub symbols: usize,
    pub rows: usize,
    pub rules: usize,
    pub first: [bool; 400],
    pub second: [bool; 400],
}

// What a call comes to: it is done, or refused, and why.
pub type Outcome = Result<(), Refusal>;

// What open, hold and withdraw answer. The board stands beside the outcome, not in its place: a refused call hands it back too, and a refused open
// one of no symbols (`RefusedUntouched` in `promises`).
#[derive(Clone, Copy)]
pub struct Change {
    pub outcome: Outcome,
    pub board: Board,
}
