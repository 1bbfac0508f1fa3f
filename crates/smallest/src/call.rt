// The call: its tests in the order of the documents, then the search, and what it lists, counted and written.

ghost use Rattle.std.specs.Prelude.{◌≡◌, true, false, ◌∷◌, ◌*◌, ◌^◌, ◌≤◌, length, ltb, Err};
ghost use Rattle.meaning.specs.Tests.{all};
ghost use Rattle.literals.specs.Literal.{in_range};
ghost use Rattle.board.specs.Faults.{good_board};
ghost use Rattle.candidates.specs.Given.{most_candidates, too_many};
ghost use Rattle.smallest.specs.Listing.{smallest_answer, smallest_sets};
ghost use Rattle.smallest.specs.Search.{placed_answer, placed_sets, given_answer, given_sets};

use crate::Listing;
use crate::search::{Note, note_sets};
use crate::writing::{count_listed, write_listed};
use board::Board;
use board::testing::good;
use candidates::MOST_CANDIDATES;
use candidates::given::{all_literals, repeated, write_places};
use candidates::sets::power;
use literals::refusal::Refusal;

fn refused(why: Refusal) -> Listing
    ensures { result ≡ record { outcome = Err why; count = 0 } }
{
    Listing {
        outcome: Err(why),
        count: 0,
    }
}

// Lists the smallest sets of candidates at these places, and writes nothing where they do not fit: each set is noted, and those listed are counted,
// before.
fn list_noted(
    board: Board,
    table: &[i16],
    places: &[usize],
    l: i16,
    notes: &mut [Note],
    sets: &mut [u16],
) -> Listing
    requires board_value { (good_board table.now board ≡ true) × (in_range board.symbols l ≡ true) }
    requires places_len_bound { (length places.now ≤ most_candidates) × (all (λ p. ltb p (2 * board.symbols)) places.now ≡ true)
        × (length notes.old ≡ 2 ^ length places.now) }
    ensures value { result ≡ placed_answer table.now board places.now l sets.old }
    ensures sets_after { sets.new ≡ placed_sets table.now board places.now l sets.old }
{
    note_sets(board, table, places, l, notes);
    let count = count_listed(notes);
    if sets.len() < count {
        return refused(Refusal::TableTooShort);
    }
    write_listed(notes, places.len(), sets);
    Listing {
        outcome: Ok(()),
        count,
    }
}

// The same, with room for the notes.
fn list(board: Board, table: &[i16], places: &[usize], l: i16, sets: &mut [u16]) -> Listing
    requires board_value { (good_board table.now board ≡ true) × (in_range board.symbols l ≡ true) }
    requires places_len_bound { (length places.now ≤ most_candidates) × (all (λ p. ltb p (2 * board.symbols)) places.now ≡ true) }
    ensures value { result ≡ placed_answer table.now board places.now l sets.old }
    ensures sets_after { sets.new ≡ placed_sets table.now board places.now l sets.old }
{
    let all = power(places.len());
    let mut notes = [Note::GoesOn; 4096];
    list_noted(board, table, places, l, &mut notes[..all], sets)
}

// Lists the smallest sets of candidates that are literals of the board, no more than there may be.
fn list_placed(
    board: Board,
    table: &[i16],
    candidates: &[i16],
    l: i16,
    places: &mut [usize],
    sets: &mut [u16],
) -> Listing
    requires board_value { (good_board table.now board ≡ true) × (all (in_range board.symbols) (l ∷ candidates.now) ≡ true) }
    requires candidates_len_bound { (length candidates.now ≤ most_candidates) × (length places.old ≡ length candidates.now) }
    ensures value { result ≡ given_answer false table.now board candidates.now l sets.old }
    ensures sets_after { sets.new ≡ given_sets false table.now board candidates.now l sets.old }
{
    write_places(candidates, places);
    if repeated(places) {
        return refused(Refusal::BadCandidates);
    }
    list(board, table, places, l, sets)
}

// The same, with room for the places, of any number of candidates.
fn list_given(board: Board, table: &[i16], candidates: &[i16], l: i16, sets: &mut [u16]) -> Listing
    requires { (good_board table.now board ≡ true) × (all (in_range board.symbols) (l ∷ candidates.now) ≡ true) }
    ensures value { result ≡ given_answer (too_many candidates.now) table.now board candidates.now l
        sets.old }
    ensures sets_after { sets.new ≡ given_sets (too_many candidates.now) table.now board candidates.now l
        sets.old }
{
    let n = candidates.len();
    if MOST_CANDIDATES < n {
        return refused(Refusal::BadCandidates);
    }
    let mut places = [0usize; 12];
    list_placed(board, table, candidates, l, &mut places[..n], sets)
}

// Lists the smallest sets of candidates that carry a literal.
pub fn smallest(
    board: Board,
    table: &[i16],
    candidates: &[i16],
    l: i16,
    sets: &mut [u16],
) -> Listing
    ensures value { result ≡ smallest_answer table.now board candidates.now l sets.old }
    ensures sets_after { sets.new ≡ smallest_sets table.now board candidates.now l sets.old }
{
    if !good(board, table) {
        return refused(Refusal::BadBoard);
    }
    if !literals::in_range(l, board.symbols) {
        return refused(Refusal::BadLiteral);
    }
    if !all_literals(board.symbols, candidates) {
        return refused(Refusal::BadLiteral);
    }
    list_given(board, table, candidates, l, sets)
}
