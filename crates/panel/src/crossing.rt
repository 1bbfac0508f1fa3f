// Boards and answers on their way to C and back.

ghost use Rattle.std.specs.Prelude.{◌≡◌, map, ◌<◌, length};
ghost use Rattle.board.specs.Faults.{number_in};
ghost use Rattle.board.specs.Grounds.{byte_of};
ghost use Rattle.panel.specs.Crossing.{flag_of, board_in, board_out, Narrow, next_out, change_out, addition_out, answer_out, reading_out, writing_out};
ghost use Rattle.panel.specs.Crossing.{spelling_out, listing_out, withdrawal_out};

use crate::{
    PanelAddition, PanelAnswer, PanelBoard, PanelChange, PanelListing, PanelReading, PanelSpelling,
    PanelWithdrawal, PanelWriting,
};
use board::asking::Standing;
use board::rules::Addition;
use board::{Board, Change, Outcome};
use dimacs::reading::Reading;
use dimacs::writing::Writing;
use least::Withdrawal;
use literals::refusal::Refusal;
use smallest::Listing;
use text::Spelling;

// A board on which each furnace holds what its bytes say: both sets in one pass.
fn board_of<'a>(
    symbols: usize,
    rows: usize,
    rules: usize,
    first: &'a [u8],
    second: &'a [u8],
) -> Board
    requires { (length first.now ≡ 400) × (length second.now ≡ 400) }
    ensures { result ≡ record {
      symbols = symbols;
      rows = rows;
      rules = rules;
      first = map flag_of first.now;
      second = map flag_of second.now;
    } }
{
    let mut board = Board {
        symbols,
        rows,
        rules,
        first: [false; 400],
        second: [false; 400],
    };
    for k in 0..400 {
        board.first[k] = first[k] != 0;
        board.second[k] = second[k] != 0;
    }
    board
}

// The same for C, by the flags of each furnace.
fn panel_of<'a>(
    symbols: u16,
    rows: u16,
    rules: u16,
    first: &'a [bool],
    second: &'a [bool],
) -> PanelBoard
    requires { (length first.now ≡ 400) × (length second.now ≡ 400) }
    ensures { result ≡ record {
      symbols = symbols;
      rows = rows;
      rules = rules;
      first = map byte_of first.now;
      second = map byte_of second.now;
    } }
{
    let mut out = PanelBoard {
        symbols,
        rows,
        rules,
        first: [0; 400],
        second: [0; 400],
    };
    for k in 0..400 {
        out.first[k] = first[k] as u8;
        out.second[k] = second[k] as u8;
    }
    out
}

// A board from C.
pub fn board_in(given: PanelBoard) -> Board
    ensures { result ≡ board_in given }
{
    board_of(
        given.symbols as usize,
        given.rows as usize,
        given.rules as usize,
        &given.first,
        &given.second,
    )
}

// A board to C.
pub fn board_out(board: Board) -> PanelBoard
    requires { Narrow board }
    ensures { result ≡ board_out board }
{
    panel_of(
        board.symbols as u16,
        board.rows as u16,
        board.rules as u16,
        &board.first,
        &board.second,
    )
}

// 0 for a call that is done, or the number of its refusal.
pub fn number_of(outcome: Outcome) -> u8
    ensures { result ≡ number_in outcome }
{
    match outcome {
        Ok(()) => 0,
        Err(why) => u8::from(why),
    }
}

// The board after a call: as the call made it, or where it was refused the very one that was given.
fn next_board(given: PanelBoard, outcome: Outcome, next: Board) -> PanelBoard
    requires { Narrow next }
    ensures { result ≡ next_out given outcome next }
{
    match outcome {
        Ok(()) => board_out(next),
        Err(_) => given,
    }
}

// What a call that changes the board tells C.
pub fn change_out(given: PanelBoard, change: Change) -> PanelChange
    requires { Narrow change.board }
    ensures { result ≡ change_out given change }
{
    let outcome = change.outcome;
    let next = change.board;
    PanelChange {
        refusal: number_of(outcome),
        board: next_board(given, outcome, next),
    }
}

// What adding a rule tells C.
pub fn addition_out(given: PanelBoard, addition: Addition) -> PanelAddition
    requires { Narrow addition.board × (addition.added < 65536) }
    ensures { result ≡ addition_out given addition }
{
    let outcome = addition.outcome;
    let next = addition.board;
    PanelAddition {
        refusal: number_of(outcome),
        place: addition.place,
        added: addition.added as u16,
        board: next_board(given, outcome, next),
    }
}

// What reading a text tells C.
pub fn reading_out(given: PanelBoard, reading: Reading) -> PanelReading
    requires { Narrow reading.board × (reading.clauses < 65536) × (reading.added < 65536) }
    ensures { result ≡ reading_out given reading }
{
    let outcome = reading.outcome;
    let next = reading.board;
    PanelReading {
        refusal: number_of(outcome),
        clauses: reading.clauses as u16,
        added: reading.added as u16,
        board: next_board(given, outcome, next),
    }
}

// What writing a text tells C.
pub fn writing_out(writing: Writing) -> PanelWriting
    ensures { result ≡ writing_out writing }
{
    let outcome = writing.outcome;
    PanelWriting {
        refusal: number_of(outcome),
        bytes: writing.bytes,
    }
}

// What reading a formula's text, or writing it, tells C.
pub fn spelling_out(spelling: Spelling) -> PanelSpelling
    ensures { result ≡ spelling_out spelling }
{
    let outcome = spelling.outcome;
    PanelSpelling {
        refusal: number_of(outcome),
        place: spelling.place,
        bytes: spelling.bytes,
    }
}

// What listing the smallest sets tells C.
pub fn listing_out(listing: Listing) -> PanelListing
    ensures { result ≡ listing_out listing }
{
    let outcome = listing.outcome;
    PanelListing {
        refusal: number_of(outcome),
        count: listing.count,
    }
}

// What the least to withdraw tells C.
pub fn withdrawal_out(withdrawal: Withdrawal) -> PanelWithdrawal
    ensures { result ≡ withdrawal_out withdrawal }
{
    let outcome = withdrawal.outcome;
    PanelWithdrawal {
        refusal: number_of(outcome),
        set: withdrawal.set,
    }
}

// The answer of a call that is done.
fn standing(of: u8) -> PanelAnswer
    ensures { result ≡ record { refusal = 0; standing = of } }
{
    PanelAnswer {
        refusal: 0,
        standing: of,
    }
}

// How a literal stands, in the header's numbers.
pub fn answer_out(answer: Result<Standing, Refusal>) -> PanelAnswer
    ensures { result ≡ answer_out answer }
{
    match answer {
        Ok(Standing::Open) => standing(0),
        Ok(Standing::Stands) => standing(1),
        Ok(Standing::RuledOut) => standing(2),
        Ok(Standing::Conflict) => standing(3),
        Err(why) => PanelAnswer {
            refusal: u8::from(why),
            standing: 0,
        },
    }
}
