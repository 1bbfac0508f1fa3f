// What is asked of a variable, and of two.

ghost use Rattle.std.specs.Prelude.{◌≡◌, ◌+◌, ◌≤◌};
ghost use Rattle.positions.specs.Positions.{on_board, share};

// Whether the first symbol is of 1 to `symbols`, and so is the last, where there is one.
pub fn on_board(first: usize, count: usize, symbols: usize) -> bool
    requires { symbols ≤ 200 }
    ensures { result ≡ on_board symbols (record { first = first; count = count }) }
{
    if first < 1 {
        return false;
    }
    if symbols < first {
        return false;
    }
    count <= symbols + 1 - first
}

// Whether two variables of a board share a symbol: each begins before the other ends.
pub fn overlap(first: usize, count: usize, other: usize, others: usize) -> bool
    requires { (first + count ≤ 201) × (other + others ≤ 201) × (2 ≤ count) × (2 ≤ others) }
    ensures { result ≡ share (record { first = first; count = count }) (record { first = other; count = others }) }
{
    if first + count <= other {
        return false;
    }
    first < other + others
}
