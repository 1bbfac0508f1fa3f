// A line of the desk: its words, what it orders, and the call that it is, carried out.
#![tactic(auto)]

pub mod marks;
pub mod order;
pub mod reading;
pub mod taking;
pub mod words;

use board::Board;
use literals::refusal::Refusal;
use stack::Stacks;

// What the desk keeps beside the table and the names: the board, the record of stacks, and the furnace that its lines work.
#[derive(Clone, Copy)]
pub struct Desk {
    pub board: Board,
    pub stacks: Stacks,
    pub furnace: u8,
}

// Why a line is no call as it stands.
#[derive(Clone, Copy)]
pub enum Slip {
    LineTooLong,
    UnknownWord,
    NumberDue,
    SymbolDue,
    UnknownName,
    NameDue,
    NameTaken,
    MarksDue,
    WordTooMany,
}

// What a line that changes something comes to; a line that asks changes nothing and is answered elsewhere.
#[derive(Clone, Copy)]
pub enum Reply {
    Done,
    Refused(Refusal),
    Not(Slip),
    Asks,
    Nothing,
}

// The same with what goes with it: for a slip the number of the word at fault; for a rule's refusal the place that the call tells; and how many rows
// were added. The place is the call's own, NO_PLACE where it tells none.
#[derive(Clone, Copy)]
pub struct Told {
    pub reply: Reply,
    pub place: usize,
    pub added: usize,
}

// The desk after a line, and what the line came to.
#[derive(Clone, Copy)]
pub struct Taken {
    pub desk: Desk,
    pub told: Told,
}
