// Sets of candidates, as numbers. That there are no more than 12 of them each call tests first.

ghost use Rattle.std.specs.Prelude.{◌≡◌, true, ◌^◌, ◌<◌, ◌≤◌, ltb, length};
ghost use Rattle.meaning.specs.Tests.{all, bit};
ghost use Rattle.candidates.specs.Sets.{chosen, set_each, size};
ghost use Rattle.candidates.specs.Given.{most_candidates};

// Whether the set has the candidate i.
pub fn has(set: usize, i: usize) -> bool
    requires { i < 64 }
    ensures { result ≡ bit i set }
{
    (set >> i) & 1 == 1
}

// How many sets n candidates have, which is the number of the set of candidate n alone.
pub fn power(n: usize) -> usize
    requires { n ≤ most_candidates }
    ensures { result ≡ 2 ^ n }
{
    1 << n
}

// How many of n candidates a set has.
pub fn size_of(set: usize, n: usize) -> usize
    requires { n ≤ most_candidates }
    ensures { result ≡ size n set }
{
    (set & (power(n) - 1)).count_ones() as usize
}

// Sets the flags of the candidates that a set has: to true where they are held, to false where they are struck off.
pub fn set_flags(flags: &mut [bool], places: &[usize], set: usize, to: bool)
    requires { all (λ p. ltb p (length flags.old)) places.now ≡ true }
    ensures { flags.new ≡ set_each to flags.old (chosen places.now set) }
{
    let mut rest = set;
    for place in places {
        if rest % 2 == 1 {
            flags[*place] = to;
        }
        rest = rest / 2;
    }
}
