// Open, hold and withdraw: the calls that change the board and no table.

ghost use Rattle.std.specs.Prelude.{◌≡◌, ◌<◌, set, Err};
ghost use Rattle.board.specs.Furnaces.{held_by, with_held};
ghost use Rattle.board.specs.Changes.{empty_board, opened, flag_changed, hold_answer, withdraw_answer};

use crate::furnaces::premises;
use crate::testing::place_on;
use crate::{Board, Change, Outcome};
use literals::refusal::Refusal;

// A board with nothing on it.
fn empty(symbols: usize) -> Board
    ensures { result ≡ empty_board symbols }
{
    Board {
        symbols,
        rows: 0,
        rules: 0,
        first: [false; 400],
        second: [false; 400],
    }
}

fn refused(board: Board, why: Refusal) -> Change
    ensures { result ≡ record { outcome = Err why; board = board } }
{
    Change {
        outcome: Err(why),
        board,
    }
}

// Opens a board of so many symbols.
pub fn open(symbols: usize) -> Change
    ensures { result ≡ opened symbols }
{
    if symbols < 1 {
        return refused(empty(0), Refusal::BadLiteral);
    }
    if 200 < symbols {
        return refused(empty(0), Refusal::BadLiteral);
    }
    Change {
        outcome: Ok(()),
        board: empty(symbols),
    }
}

// The board with the flag at one place of a furnace's premises set so; for another number as it was.
pub fn with_flag(board: Board, furnace: u8, p: usize, flag: bool) -> Board
    requires { p < 400 }
    ensures { result ≡ with_held board furnace (set (held_by board furnace) p flag) }
{
    let mut next = board;
    if furnace == 1 {
        next.first[p] = flag;
        return next;
    }
    if furnace == 2 {
        next.second[p] = flag;
    }
    next
}

// Sets the flag of a furnace's premise so; refused with `already` where it is so.
fn change_flag(
    board: Board,
    table: &[i16],
    furnace: u8,
    l: i16,
    flag: bool,
    already: Refusal,
) -> Change
    ensures { result ≡ flag_changed table.now board furnace l flag already }
{
    match place_on(board, table, furnace, l) {
        Err(why) => refused(board, why),
        Ok(p) => {
            let held = premises(&board.first, &board.second, furnace);
            if held[p] == flag {
                return refused(board, already);
            }
            Change {
                outcome: Ok(()),
                board: with_flag(board, furnace, p, flag),
            }
        }
    }
}

// Puts a literal into a furnace's premises.
pub fn hold(board: Board, table: &[i16], furnace: u8, l: i16) -> Change
    ensures { result ≡ hold_answer table.now board furnace l }
{
    change_flag(board, table, furnace, l, true, Refusal::AlreadyHeld)
}

// Takes a literal out of a furnace's premises.
pub fn withdraw(board: Board, table: &[i16], furnace: u8, l: i16) -> Change
    ensures { result ≡ withdraw_answer table.now board furnace l }
{
    change_flag(board, table, furnace, l, false, Refusal::NotHeld)
}
