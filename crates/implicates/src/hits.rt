// Which clauses an assignment that satisfies the rule makes false, and which are prime: each clause in constant time from
// smaller ones.

ghost use Rattle.std.specs.Prelude.{◌≡◌, ◌*◌, ◌<◌, ◌≤◌, ◌^◌, length};
ghost use Rattle.meaning.specs.Clauses.{lone};
ghost use Rattle.implicates.specs.Numbers.{clause_at};
ghost use Rattle.implicates.specs.Hits.{hit_table, joined, marked, prime_in, prime_table};

// How many clauses there are over n symbols.
pub fn clause_count(n: usize) -> usize
    requires { n ≤ 8 }
    ensures { result ≡ 3 ^ n }
{
    3usize.pow(n as u32)
}

// Writes into the last third of `hits` where one of the first two thirds has a hit.
fn join_thirds(hits: &mut [bool], third: usize)
    requires { length hits.old ≡ 3 * third }
    ensures { hits.new ≡ joined third hits.old }
{
    for i in 0..third {
        hits[2 * third + i] = hits[i] | hits[third + i];
    }
}

// Writes, for each clause over n symbols by number, whether it is hit: where the first symbol's literal is +, the rest is hit by
// the half of the truth table where that symbol is false; where it is −, by the other half; where it is left out, by either.
pub fn fill_hits(truth: &[bool], n: usize, hits: &mut [bool])
    requires { (length truth.now ≡ 2 ^ n) × (length hits.old ≡ 3 ^ n) }
    ensures { hits.new ≡ hit_table n truth.now }
{
    if n == 0 {
        hits[0] = truth[0];
    } else {
        let half = truth.len() / 2;
        let third = hits.len() / 3;
        fill_hits(&truth[..half], n - 1, &mut hits[..third]);
        fill_hits(&truth[half..], n - 1, &mut hits[third..2 * third]);
        join_thirds(hits, third);
    }
}

// Whether each clause made by leaving out one literal of the clause numbered c is hit.
fn one_less_hit(hits: &[bool], n: usize, c: usize) -> bool
    requires { (c < 3 ^ n) × (3 ^ n ≤ length hits.now) }
    ensures { result ≡ lone (marked hits.now) (clause_at n c) }
{
    let mut rest = c;
    let mut weight = 1;
    for _ in 0..n {
        let digit = rest % 3;
        if digit < 2 {
            if !hits[c + (2 - digit) * weight] {
                return false;
            }
        }
        rest = rest / 3;
        weight = weight * 3;
    }
    true
}

// Whether the clause numbered c is a prime implicate of the rule whose hits the table has.
fn is_prime(hits: &[bool], n: usize, c: usize) -> bool
    requires { (c < 3 ^ n) × (3 ^ n ≤ length hits.now) }
    ensures { result ≡ prime_in hits.now (clause_at n c) }
{
    if hits[c] {
        return false;
    }
    one_less_hit(hits, n, c)
}

// Writes over each clause's hit, by number, whether the clause is prime. A clause without one of its literals has a larger number, so the
// hits that are still needed lie ahead.
pub fn mark_primes(hits: &mut [bool], n: usize)
    requires { length hits.old ≡ 3 ^ n }
    ensures { hits.new ≡ prime_table n hits.old }
{
    for c in 0..hits.len() {
        hits[c] = is_prime(hits, n, c);
    }
}
