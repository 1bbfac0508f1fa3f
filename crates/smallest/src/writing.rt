// The sets listed, counted and written: by size, then by number.
// No heap: what is written goes into what is lent, and the place after it is told.

ghost use Rattle.std.specs.Prelude.{◌≡◌, ◌&&◌, suc, ◌+◌, ◌^◌, ◌<◌, ◌≤◌, eqb, length};
ghost use Rattle.std.proofs.lemmas.List.Edits.{sets};
ghost use Rattle.meaning.specs.Tests.{keep, from};
ghost use Rattle.candidates.specs.Sets.{size};
ghost use Rattle.candidates.specs.Given.{most_candidates};
ghost use Rattle.smallest.specs.Search.{listed_in, listed_of_size, listed_below};

use crate::search::Note;
use candidates::sets::size_of;

// How many sets are listed.
pub fn count_listed(notes: &[Note]) -> usize
    ensures { result ≡ length (keep (listed_in notes.now) (from 0 (length notes.now))) }
{
    notes.iter().filter(|note| **note == Note::Listed).count()
}

// Whether a set is listed and has k candidates.
fn listed_of_size(notes: &[Note], n: usize, k: usize, set: usize) -> bool
    requires { (n ≤ most_candidates) × (set < length notes.now) }
    ensures { result ≡ (eqb (size n set) k && listed_in notes.now set) }
{
    if notes[set] != Note::Listed {
        return false;
    }
    size_of(set, n) == k
}

// Writes the listed sets of k candidates from place `at` on, by number. Returns the next place.
fn write_size(notes: &[Note], n: usize, k: usize, out: &mut [u16], at: usize) -> usize
    requires n_le_most_candidates { (n ≤ most_candidates) × (length notes.now ≡ 2 ^ n) }
    requires room { at + length (listed_of_size notes.now n k) ≤ length out.old }
    ensures out_after { out.new ≡ sets out.old at (listed_of_size notes.now n k) }
    ensures value { result ≡ at + length (listed_of_size notes.now n k) }
{
    let mut next = at;
    for set in 0..notes.len() {
        if listed_of_size(notes, n, k, set) {
            out[next] = set as u16;
            next += 1;
        }
    }
    next
}

// Writes all of them, smaller sets first.
pub fn write_listed(notes: &[Note], n: usize, out: &mut [u16])
    requires n_le_most_candidates { (n ≤ most_candidates) × (length notes.now ≡ 2 ^ n) }
    requires room { length (listed_below notes.now n (suc n)) ≤ length out.old }
    ensures { out.new ≡ sets out.old 0 (listed_below notes.now n (suc n)) }
{
    let mut next = 0;
    for k in 0..n + 1 {
        next = write_size(notes, n, k, out, next);
    }
}
