// The call: its tests in the order of the documents, then the search.

ghost use Rattle.std.specs.Prelude.{◌≡◌, true, ◌*◌, ◌≤◌, ltb, length, Err};
ghost use Rattle.meaning.specs.Tests.{all, none};
ghost use Rattle.meaning.specs.Literals.{has};
ghost use Rattle.literals.specs.Literal.{in_range};
ghost use Rattle.board.specs.Furnaces.{is_furnace, held_by};
ghost use Rattle.board.specs.Faults.{good_board};
ghost use Rattle.candidates.specs.Given.{most_candidates};
ghost use Rattle.least.specs.Withdrawing.{least_answer};
ghost use Rattle.least.specs.Search.{stay_answer, given_answer};

use crate::effects::effect_of;
use crate::search::search;
use crate::{NO_SET, Withdrawal};
use board::Board;
use board::testing::{good, is_furnace};
use candidates::MOST_CANDIDATES;
use candidates::given::{all_literals, repeated, write_places};
use candidates::sets::power;
use literals::refusal::Refusal;

fn refused(why: Refusal) -> Withdrawal
    ensures { result ≡ record { outcome = Err why; set = none } }
{
    Withdrawal {
        outcome: Err(why),
        set: NO_SET,
    }
}

// 18 where withdrawing all of the candidates, by their places, leaves the conflict; otherwise the least of them. There is room for 256 cores.
fn least_held(board: Board, table: &[i16], furnace: u8, places: &[usize]) -> Withdrawal
    requires board_value { (good_board table.now board ≡ true) × (is_furnace furnace ≡ true) }
    requires places_len_bound { (length places.now ≤ most_candidates) × (all (λ p. ltb p (2 * board.symbols)) places.now ≡ true) }
    ensures { result ≡ stay_answer table.now board furnace places.now }
{
    let sets = power(places.len());
    match effect_of(board, table, furnace, places, sets - 1) {
        Some(_) => refused(Refusal::ConflictStays),
        None => {
            let mut cores = [0u16; 256];
            let found = search(board, table, furnace, places, &mut cores);
            Withdrawal {
                outcome: Ok(()),
                set: found.unwrap_or(NO_SET as usize) as u16,
            }
        }
    }
}

// Whether all of the places are held.
fn all_held(held: &[bool], places: &[usize]) -> bool
    requires { all (λ p. ltb p (length held.now)) places.now ≡ true }
    ensures { result ≡ all (has held.now) places.now }
{
    for place in places {
        if !held[*place] {
            return false;
        }
    }
    true
}

// Whether a furnace holds all of them.
fn held_by(board: Board, furnace: u8, places: &[usize]) -> bool
    requires { (is_furnace furnace ≡ true) × (all (λ p. ltb p 400) places.now ≡ true) }
    ensures { result ≡ all (has (held_by board furnace)) places.now }
{
    if furnace == 1 {
        all_held(&board.first, places)
    } else {
        all_held(&board.second, places)
    }
}

// The least of candidates that are literals of the board, no more than there may be.
fn least_placed(
    board: Board,
    table: &[i16],
    furnace: u8,
    candidates: &[i16],
    places: &mut [usize],
) -> Withdrawal
    requires board_value { (good_board table.now board ≡ true) × (is_furnace furnace ≡ true) × (all (in_range board.symbols) candidates.now ≡ true) }
    requires candidates_len_bound { (length candidates.now ≤ most_candidates) × (length places.old ≡ length candidates.now) }
    ensures { result ≡ given_answer table.now board furnace candidates.now }
{
    write_places(candidates, places);
    if repeated(places) {
        return refused(Refusal::BadCandidates);
    }
    if !held_by(board, furnace, places) {
        return refused(Refusal::NotHeld);
    }
    least_held(board, table, furnace, places)
}

// The least set of candidates to withdraw from a furnace's premises, so that its conflict ends. Nothing is withdrawn.
pub fn least(board: Board, table: &[i16], furnace: u8, candidates: &[i16]) -> Withdrawal
    ensures { result ≡ least_answer table.now board furnace candidates.now }
{
    if !good(board, table) {
        return refused(Refusal::BadBoard);
    }
    if !is_furnace(furnace) {
        return refused(Refusal::BadFurnace);
    }
    if !all_literals(board.symbols, candidates) {
        return refused(Refusal::BadLiteral);
    }
    let n = candidates.len();
    if MOST_CANDIDATES < n {
        return refused(Refusal::BadCandidates);
    }
    let mut places = [0usize; 12];
    least_placed(board, table, furnace, candidates, &mut places[..n])
}
