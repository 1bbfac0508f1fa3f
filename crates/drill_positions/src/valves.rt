// Boards of valves, entered into a table with nothing printed.

ghost use Rattle.std.specs.Prelude.{◌≤◌};

use board::Board;
use positions::pairs::add_pairs;
use positions::variables::add_positions;
use report::boards::blank;

// Of two positions, each with the same of the other valve; and each with the one that is not the same.
const SAME: usize = 0b0000010_0000001;

const CROSSED: usize = 0b0000001_0000010;

// Valves of so many positions each, up to the last symbol.
fn valves(table: &mut [i16], symbols: usize, positions: usize) -> Board
    requires { (symbols ≤ 200) × (1 ≤ positions) × (positions ≤ 7) }
{
    let firsts = (1..symbols).step_by(positions);
    firsts.fold(blank(symbols, 0, 0), |b, first| {
        let told = add_positions(b, table, first, positions);
        told.board
    })
}

// A pair table between two valves of so many positions.
fn joined(
    b: Board,
    table: &mut [i16],
    first: usize,
    other: usize,
    positions: usize,
    pairs: usize,
) -> Board {
    let told = add_pairs(b, table, first, positions, other, positions, pairs);
    told.board
}

// Two valves of three positions that may not be in the same position.
pub fn apart(table: &mut [i16]) -> Board {
    let b = valves(table, 6, 3);
    joined(b, table, 1, 4, 3, 0b0000011_0000101_0000110)
}

// Four valves of two positions: the second as the first, the third not as the second, the fourth as the third.
pub fn chain(table: &mut [i16]) -> Board {
    let none = valves(table, 8, 2);
    let one = joined(none, table, 1, 3, 2, SAME);
    let two = joined(one, table, 5, 3, 2, CROSSED);
    joined(two, table, 5, 7, 2, SAME)
}

// Three valves of two positions: the second as the first, and not as the first; nothing of the third.
pub fn torn(table: &mut [i16]) -> Board {
    let none = valves(table, 6, 2);
    let one = joined(none, table, 1, 3, 2, SAME);
    joined(one, table, 1, 3, 2, CROSSED)
}

// Three valves of three positions. The third position of the first has no partner, nor has that of the second, which alone is the partner of the
// first position of the third valve.
pub fn narrow(table: &mut [i16]) -> Board {
    let none = valves(table, 9, 3);
    let one = joined(none, table, 1, 4, 3, SAME);
    joined(one, table, 4, 7, 3, 0b0000001_0000100_0000010)
}
