// A clause's places, by rising symbols, in a row that is lent.

ghost use Rattle.std.specs.Prelude.{◌≡◌, ◌<◌, ◌≤◌, length, take};
ghost use Rattle.dimacs.specs.Gathering.{lower_of, put_at, Inserts};

// What putting a place into a row answers: how many places there are then, whether its opposite was there, and whether there was
// no room for another symbol. No enum of the cases: what is kept of a clause takes these three over as they are.
#[derive(Clone, Copy)]
pub struct Inserted {
    pub count: usize,
    pub clash: bool,
    pub full: bool,
}

// How many of the first `count` places are of symbols before s.
fn lower(row: &[usize], count: usize, s: usize) -> usize
    requires { count ≤ length row.now }
    ensures { result ≡ lower_of s (take count row.now) }
{
    row[..count].iter().take_while(|p| **p / 2 < s).count()
}

// Puts a place at j, and those of the first `count` places from j on one further.
fn put_at(row: &mut [usize], count: usize, j: usize, p: usize)
    requires { (j ≤ count) × (count < length row.old) }
    ensures { row.new ≡ put_at row.old count j p }
{
    row.copy_within(j..count, j + 1);
    row[j] = p;
}

// Puts a place among the first `count` places of a row, by rising symbols, if its symbol is not there yet.
pub fn insert(row: &mut [usize], count: usize, p: usize) -> Inserted
    requires { count ≤ length row.old }
    ensures { Inserts row.old row.new count p result.count result.clash result.full }
{
    let j = lower(row, count, p / 2);
    if j < count {
        let q = row[j];
        if q / 2 == p / 2 {
            return Inserted {
                count,
                clash: q != p,
                full: false,
            };
        }
    }
    if count == row.len() {
        return Inserted {
            count,
            clash: false,
            full: true,
        };
    }
    put_at(row, count, j, p);
    Inserted {
        count: count + 1,
        clash: false,
        full: false,
    }
}
