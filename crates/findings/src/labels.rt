// The labels of the symbols; whether one is in conflict, and which one was first.

ghost use Rattle.std.specs.Prelude.{◌≡◌, ◌*◌, ◌/◌, ◌<◌, max, ltb, length};
ghost use Rattle.meaning.specs.Tests.{none, first};
ghost use Rattle.meaning.specs.Rounds.{label_of};
ghost use Rattle.findings.specs.Ranks.{labels_from, clash_in, earliest_in, found};

use crate::NONE;

// The label of a symbol from the ranks of its two literals.
fn label(plus: u16, minus: u16) -> u8
    ensures { result ≡ label_of (ltb plus none) (ltb minus none) }
{
    if plus < NONE {
        if minus < NONE { 3 } else { 1 }
    } else if minus < NONE {
        2
    } else {
        0
    }
}

// The labels that the ranks tell.
pub fn write_labels(ranks: &[u16], labels: &mut [u8])
    requires { length ranks.now ≡ 2 * length labels.old }
    ensures { labels.new ≡ labels_from (length labels.old) ranks.now }
{
    for (s, one) in labels.iter_mut().enumerate() {
        *one = label(ranks[2 * s], ranks[2 * s + 1]);
    }
}

// The lowest symbol, counted from 0, whose two literals both have a rank, if there is one.
pub fn first_clash(ranks: &[u16]) -> Option<usize>
    requires { length ranks.now < none }
    ensures { result ≡ found (first (clash_in ranks.now) (length ranks.now / 2)) }
{
    for s in 0..ranks.len() / 2 {
        if ranks[2 * s] < NONE && ranks[2 * s + 1] < NONE {
            return Some(s);
        }
    }
    None
}

// The larger of a symbol's two ranks: NONE, the largest number, where one of them is none. So a symbol without label 3 is never below another.
fn larger(plus: u16, minus: u16) -> u16
    ensures { result ≡ max plus minus }
{
    if plus < minus { minus } else { plus }
}

// The symbol, counted from 0, that came to both its literals first: of those whose two literals both have a rank the one whose larger rank is
// smallest, and of equals the lowest; if there is one.
pub fn earliest_clash(ranks: &[u16]) -> Option<usize>
    requires { length ranks.now < none }
    ensures { result ≡ found (earliest_in ranks.now) }
{
    let mut found = None;
    let mut least = NONE;
    for s in 0..ranks.len() / 2 {
        let rank = larger(ranks[2 * s], ranks[2 * s + 1]);
        if rank < least {
            found = Some(s);
            least = rank;
        }
    }
    found
}
