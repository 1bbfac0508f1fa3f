// What withdrawing a set of candidates does: blame, asked once they are struck off, tells it.

ghost use Rattle.std.specs.Prelude.{◌≡◌, true, ◌*◌, ◌≤◌, ltb, length};
ghost use Rattle.meaning.specs.Tests.{all};
ghost use Rattle.board.specs.Furnaces.{is_furnace};
ghost use Rattle.board.specs.Faults.{good_board};
ghost use Rattle.candidates.specs.Given.{most_candidates};
ghost use Rattle.least.specs.Effects.{struck_on, marked_set, effect_of};

use board::Board;
use board::grounds::blame;
use candidates::sets::set_flags;

// The board with a set of candidates struck off a furnace's premises.
fn struck_off(board: Board, furnace: u8, places: &[usize], set: usize) -> Board
    requires { (is_furnace furnace ≡ true) × (all (λ p. ltb p 400) places.now ≡ true) }
    ensures { result ≡ struck_on board furnace places.now set }
{
    let mut next = board;
    if furnace == 1 {
        set_flags(&mut next.first, places, set, false);
    } else {
        set_flags(&mut next.second, places, set, false);
    }
    next
}

// The candidates that are marked, as a set.
fn marked(marks: &[u8], places: &[usize]) -> usize
    requires { (length places.now ≤ most_candidates) × (all (λ p. ltb p (length marks.now)) places.now ≡ true) }
    ensures { result ≡ marked_set marks.now places.now }
{
    let mut set = 0;
    for i in (0..places.len()).rev() {
        set = 2 * set + usize::from(marks[places[i]] == 1);
    }
    set
}

// Strikes a set off and asks for the blame: none where the conflict ends, and otherwise the core of the one that is left, the set of those candidates
// that it stands on.
pub fn effect_of(
    board: Board,
    table: &[i16],
    furnace: u8,
    places: &[usize],
    set: usize,
) -> Option<usize>
    requires board_value { (good_board table.now board ≡ true) × (is_furnace furnace ≡ true) }
    requires places_len_bound { (length places.now ≤ most_candidates) × (all (λ p. ltb p (2 * board.symbols)) places.now ≡ true) }
    ensures { result ≡ effect_of table.now board furnace places.now set }
{
    let mut marks = [0u8; 400];
    match blame(
        struck_off(board, furnace, places, set),
        table,
        furnace,
        &mut marks,
    ) {
        Ok(()) => Some(marked(&marks, places)),
        Err(_) => None,
    }
}
