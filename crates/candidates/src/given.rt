// The candidates that a call is given: whether they are literals of the board, where they stand, and whether one stands twice.

ghost use Rattle.std.specs.Prelude.{◌≡◌, true, length};
ghost use Rattle.meaning.specs.Tests.{all};
ghost use Rattle.literals.specs.Literal.{in_range};
ghost use Rattle.candidates.specs.Given.{places_of, repeats};

// Whether all of them, however many, are literals of a board of so many symbols.
pub fn all_literals(symbols: usize, candidates: &[i16]) -> bool
    ensures { result ≡ all (in_range symbols) candidates.now }
{
    candidates.iter().all(|c| literals::in_range(*c, symbols))
}

// Writes the places of candidates that the call has found to be literals.
pub fn write_places(candidates: &[i16], places: &mut [usize])
    requires { (all (in_range 200) candidates.now ≡ true) × (length places.old ≡ length candidates.now) }
    ensures { places.new ≡ places_of candidates.now }
{
    for (i, candidate) in candidates.iter().enumerate() {
        places[i] = literals::place(*candidate);
    }
}

// Whether one of the places stands twice.
pub fn repeated(places: &[usize]) -> bool
    ensures { result ≡ repeats places.now }
{
    for (i, p) in places.iter().enumerate() {
        if places[i + 1..].contains(p) {
            return true;
        }
    }
    false
}
