// The tests that come first: refusal 1 for a board, then 16 for a furnace and 2 for a literal.

ghost use Rattle.std.specs.Prelude.{◌≡◌, drop};
ghost use Rattle.meaning.specs.Tests.{any};
ghost use Rattle.board.specs.Furnaces.{is_furnace};
ghost use Rattle.board.specs.Faults.{good_board};
ghost use Rattle.board.specs.Placing.{placed};

use crate::Board;
use literals::refusal::Refusal;

// Whether a premise stands at `places` or beyond.
fn held_beyond(held: &[bool], places: usize) -> bool
    ensures { result ≡ any (λ h. h) (drop places held.now) }
{
    let mut found = false;
    for k in places..held.len() {
        found = found | held[k];
    }
    found
}

// Whether S is from 1 to 200, no more rules are counted than there are numbers for, the rows in use are lent and sound, and no premise of either
// furnace is of a symbol beyond S.
pub fn good(board: Board, table: &[i16]) -> bool
    ensures { result ≡ good_board table.now board }
{
    if board.symbols < 1 {
        return false;
    }
    if 200 < board.symbols {
        return false;
    }
    if literals::MOST_RULES < board.rules {
        return false;
    }
    if literals::rows_lent(table) < board.rows {
        return false;
    }
    if !literals::rows_sound(table, board.rows, board.symbols, board.rules) {
        return false;
    }
    if held_beyond(&board.first, 2 * board.symbols) {
        return false;
    }
    !held_beyond(&board.second, 2 * board.symbols)
}

// Whether there is a furnace of this number.
pub fn is_furnace(furnace: u8) -> bool
    ensures { result ≡ is_furnace furnace }
{
    if furnace == 1 {
        return true;
    }
    furnace == 2
}

// The place of a literal of a good board, for a furnace; or why the call is refused: the board, the furnace or the literal.
pub fn place_on(board: Board, table: &[i16], furnace: u8, l: i16) -> Result<usize, Refusal>
    ensures { result ≡ placed table.now board furnace l }
{
    if !good(board, table) {
        return Err(Refusal::BadBoard);
    }
    if !is_furnace(furnace) {
        return Err(Refusal::BadFurnace);
    }
    if !literals::in_range(l, board.symbols) {
        return Err(Refusal::BadLiteral);
    }
    Ok(literals::place(l))
}
