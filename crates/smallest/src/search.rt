// What is noted of each set of candidates, by number: whether the search stops there, and whether the set is listed.

ghost use Rattle.std.specs.Prelude.{◌≡◌, true, cond, ◌*◌, ◌^◌, ◌<◌, ◌≤◌, length, ltb};
ghost use Rattle.meaning.specs.Tests.{all};
ghost use Rattle.literals.specs.Literal.{in_range, place_of};
ghost use Rattle.board.specs.Faults.{good_board};
ghost use Rattle.board.specs.Ranking.{rows_on};
ghost use Rattle.board.specs.Asking.{asked_whole};
ghost use Rattle.candidates.specs.Given.{most_candidates};
ghost use Rattle.smallest.specs.Search.{alone_on, notes_of, stops_fewer, standing_note};

use board::Board;
use board::asking::{Standing, ask_whole};
use candidates::sets::{has, power, set_flags};

// The search goes on beyond the set, or stops at it, or stops at it and the set is listed.
#[derive(Clone, Copy, PartialEq)]
pub enum Note {
    GoesOn,
    Stops,
    Listed,
}

// The board with the candidates of a set as the premises of furnace 1, and no others.
fn alone(board: Board, places: &[usize], set: usize) -> Board
    requires { (length places.now ≤ most_candidates) × (all (λ p. ltb p 400) places.now ≡ true) }
    ensures { result ≡ alone_on board places.now set }
{
    let mut first = [false; 400];
    set_flags(&mut first, places, set, true);
    Board {
        symbols: board.symbols,
        rows: board.rows,
        rules: board.rules,
        first,
        second: [false; 400],
    }
}

// Whether the search stops at a set with one candidate fewer.
fn stops_fewer(notes: &[Note], n: usize, set: usize) -> bool
    requires { (n ≤ most_candidates) × (set < length notes.now) }
    ensures { result ≡ stops_fewer notes.now n set }
{
    for i in 0..n {
        if has(set, i) {
            if notes[set - power(i)] != Note::GoesOn {
                return true;
            }
        }
    }
    false
}

// The note of a set, by those of the sets before it. Where none of these stops it, it is held alone, and the literal is asked for, of the whole
// board: a set in conflict is not listed, whichever symbol is in conflict.
fn note_one(
    board: Board,
    table: &[i16],
    places: &[usize],
    l: i16,
    notes: &[Note],
    set: usize,
) -> Note
    requires { (length places.now ≤ most_candidates) × (all (λ p. ltb p 400) places.now ≡ true) × (set < length notes.now) }
    ensures { result ≡ cond (stops_fewer notes.now (length places.now) set) Note.Stops
        (standing_note (asked_whole table.now (alone_on board places.now set) 1 l)) }
{
    if stops_fewer(notes, places.len(), set) {
        return Note::Stops;
    }
    match ask_whole(alone(board, places, set), table, 1, l) {
        Ok(Standing::Conflict) => Note::Stops,
        Ok(Standing::Stands) => Note::Listed,
        Ok(Standing::RuledOut) => Note::GoesOn,
        Ok(Standing::Open) => Note::GoesOn,
        Err(_) => Note::GoesOn,
    }
}

// Writes the note of every set. Every set inside another has a smaller number, so it is noted before.
pub fn note_sets(board: Board, table: &[i16], places: &[usize], l: i16, notes: &mut [Note])
    requires board_value { (good_board table.now board ≡ true) × (in_range board.symbols l ≡ true) }
    requires places_len_bound { (length places.now ≤ most_candidates) × (all (λ p. ltb p (2 * board.symbols)) places.now ≡ true)
        × (length notes.old ≡ 2 ^ length places.now) }
    ensures { notes.new ≡ notes_of (2 * board.symbols) (rows_on table.now board) places.now (place_of l) }
{
    for set in 0..notes.len() {
        notes[set] = note_one(board, table, places, l, notes, set);
    }
}
