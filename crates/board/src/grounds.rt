// Ground and blame: the premises that a literal, or a conflict, stands on.

ghost use Rattle.std.specs.Prelude.{◌≡◌, ◌≤◌, ◌++◌, map, length, drop};
ghost use Rattle.board.specs.Grounds.{byte_of, ground_outcome, ground_marks, blame_outcome, blame_marks};

use crate::furnaces::premises;
use crate::testing::{good, is_furnace, place_on};
use crate::{Board, Outcome};
use findings::NONE;
use literals::refusal::Refusal;

// Writes 1 for each premise reached and 0 for every other place over the front of `marks`.
fn write_marks(reached: &[bool], marks: &mut [u8])
    requires { length reached.now ≤ length marks.old }
    ensures { marks.new ≡ map byte_of reached.now ++ drop (length reached.now) marks.old }
{
    for (k, is_reached) in reached.iter().enumerate() {
        marks[k] = u8::from(*is_reached);
    }
}

// Marks the premises of a furnace that a literal stands on.
pub fn ground(board: Board, table: &[i16], furnace: u8, l: i16, marks: &mut [u8]) -> Outcome
    ensures value { result ≡ ground_outcome table.now board furnace l marks.old }
    ensures marks_after { marks.new ≡ ground_marks table.now board furnace l marks.old }
{
    let p = place_on(board, table, furnace, l)?;
    let places = 2 * board.symbols;
    if marks.len() < places {
        return Err(Refusal::TableTooShort);
    }
    let held = premises(&board.first, &board.second, furnace);
    let mut ranks = [NONE; 400];
    let mut reached = [false; 400];
    rounds::propagation::trace(
        table,
        board.rows,
        held,
        &mut ranks[..places],
        p,
        &mut reached[..places],
    );
    if ranks[p] == NONE {
        return Err(Refusal::NothingToShow);
    }
    write_marks(&reached[..places], marks);
    Ok(())
}

// Marks the premises of a furnace that the symbol that blame takes stands on, by either of its literals: `trace`, given no place, finds it.
pub fn blame(board: Board, table: &[i16], furnace: u8, marks: &mut [u8]) -> Outcome
    ensures value { result ≡ blame_outcome table.now board furnace marks.old }
    ensures marks_after { marks.new ≡ blame_marks table.now board furnace marks.old }
{
    if !good(board, table) {
        return Err(Refusal::BadBoard);
    }
    if !is_furnace(furnace) {
        return Err(Refusal::BadFurnace);
    }
    let places = 2 * board.symbols;
    if marks.len() < places {
        return Err(Refusal::TableTooShort);
    }
    let held = premises(&board.first, &board.second, furnace);
    let mut ranks = [NONE; 400];
    let mut reached = [false; 400];
    rounds::propagation::trace(
        table,
        board.rows,
        held,
        &mut ranks[..places],
        NONE as usize,
        &mut reached[..places],
    );
    if findings::labels::first_clash(&ranks[..places]).is_none() {
        return Err(Refusal::NothingToShow);
    }
    write_marks(&reached[..places], marks);
    Ok(())
}
