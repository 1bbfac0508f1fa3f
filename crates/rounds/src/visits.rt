// Visiting the rows that contain a literal that was ruled out.
// No heap: the queue lies in what is lent, and its end is told.

ghost use Rattle.std.specs.Prelude.{◌≡◌, cond, map, ◌⊎◌, ℕ, ◌+◌, ◌<◌, ◌≤◌, ltb, length, get_or, set};
ghost use Rattle.meaning.specs.Tests.{none};
ghost use Rattle.meaning.specs.Literals.{opp};
ghost use Rattle.meaning.specs.Rounds.{gives};
ghost use Rattle.literals.specs.Row.{numbers_at, decode, rows_in, Fit};
ghost use Rattle.index.specs.Index.{Contains, Index};
ghost use Rattle.findings.specs.Ranks.{below};
ghost use Rattle.findings.specs.Queue.{Room, Queued};
ghost use Rattle.rounds.specs.Queue.{ranked};
ghost use Rattle.rounds.specs.Ranks.{mark};
ghost use Rattle.rounds.specs.Visits.{Touched, Looked, struck, Counts, Struck};

use crate::marks::{mark_all, mark_row};
use literals::MOST_LITERALS;

// The place of the opposite: the other one of the symbol's two.
fn opposite_place(p: usize) -> usize
    requires { p < none }
    ensures { result ≡ opp p }
{
    if p % 2 == 0 { p + 1 } else { p - 1 }
}

// One more literal of the row is ruled out. A row that keeps two or more gives nothing; where its count says that fewer may be left it is looked
// at. Gives the queue's end.
fn strike(
    table: &[i16],
    row: usize,
    ranks: &mut [u16],
    k: u16,
    queue: &mut [u16],
    end: usize,
    counts: &mut [u8],
) -> usize
    requires fit { Fit (length ranks.old) (row + 1) table.now }
    requires k_lt_none { (k < none) × (row < length counts.old) }
    requires room { Room ranked ranks.old queue.old end }
    ensures ranks_after { ranks.new ≡ cond (ltb 2 (get_or counts.old row 0)) ranks.old
        (mark k (gives (below k ranks.old) (decode (numbers_at table.now row))) ranks.old) }
    ensures queued { Queued ranked 0 ranks.old ranks.new queue.old end queue.new result }
    ensures counts_after { counts.new ≡ set counts.old row (struck (get_or counts.old row 0)) }
{
    let left = counts[row];
    if left > 2 {
        counts[row] = left - 1;
        return end;
    }
    counts[row] = 1;
    mark_row(table, row, ranks, k, queue, end)
}

// The literal at p is ruled out: strikes it from the rows that contain it. Gives the queue's end.
fn visit(
    table: &[i16],
    rows: usize,
    heads: &[u16],
    links: &[u16],
    p: usize,
    ranks: &mut [u16],
    k: u16,
    queue: &mut [u16],
    end: usize,
    counts: &mut [u8],
) -> usize
    requires fit { Fit (length ranks.old) rows table.now }
    requires index { Index (length ranks.old) rows table.now heads.now links.now }
    requires p_in_bounds { (p < length ranks.old) × (k < none) × (length counts.old ≡ rows) }
    requires room { Room ranked ranks.old queue.old end }
    ensures looked { Looked k rows table.now (λ i. Contains table.now i p × (get_or counts.new i 0 ≤ 1))
        ranks.old ranks.new }
    ensures queued { Queued ranked 0 ranks.old ranks.new queue.old end queue.new result }
    ensures struck { Struck rows table.now p counts.old counts.new }
{
    let cells = MOST_LITERALS * rows;
    let mut next = end;
    let mut cell = heads[p] as usize;
    // A while: the next cell is the one that this cell's link names.
    while cell < cells {
        next = strike(table, cell / MOST_LITERALS, ranks, k, queue, next, counts);
        cell = links[cell] as usize;
    }
    next
}

// Rank k by the rows that the literals of rank k - 1 touch: they stand in the queue from `from` to `to`. Gives the queue's end.
pub fn visit_rows(
    table: &[i16],
    rows: usize,
    heads: &[u16],
    links: &[u16],
    ranks: &mut [u16],
    k: u16,
    queue: &mut [u16],
    from: usize,
    to: usize,
    end: usize,
    counts: &mut [u8],
) -> usize
    requires fit { Fit (length ranks.old) rows table.now }
    requires index { Index (length ranks.old) rows table.now heads.now links.now }
    requires k_lt_none { (k < none) × (from ≤ to) × (to ≤ end) × (length counts.old ≡ rows) }
    requires room { Room ranked ranks.old queue.old end }
    requires by_index { (i : ℕ) → i < to → get_or queue.old i 0 < length ranks.old }
    requires counts { Counts rows table.now queue.old from counts.old }
    ensures looked { Looked k rows table.now
        (λ i. Touched table.now queue.old from to i × (get_or counts.new i 0 ≤ 1))
        ranks.old ranks.new }
    ensures queued { Queued ranked 0 ranks.old ranks.new queue.old end queue.new result }
    ensures counts_2 { Counts rows table.now queue.old to counts.new }
    ensures by_index_2 { (i : ℕ) →
        (get_or counts.new i 0 ≡ get_or counts.old i 0) ⊎ Touched table.now queue.old from to i }
{
    let mut next = end;
    for at in from..to {
        let p = opposite_place(queue[at] as usize);
        next = visit(table, rows, heads, links, p, ranks, k, queue, next, counts);
    }
    next
}

// Rank 1 by the rows of one literal, which no other literal's rank brings about: such a row gives it whatever is known. Gives the queue's end.
pub fn visit_units(
    table: &[i16],
    rows: usize,
    ranks: &mut [u16],
    queue: &mut [u16],
    end: usize,
    counts: &[u8],
) -> usize
    requires fit { Fit (length ranks.old) rows table.now }
    requires counts_value { counts.now ≡ map length (rows_in rows table.now) }
    requires room { Room ranked ranks.old queue.old end }
    ensures looked { Looked 1 rows table.now (λ i. get_or counts.now i 0 ≤ 1) ranks.old ranks.new }
    ensures queued { Queued ranked 0 ranks.old ranks.new queue.old end queue.new result }
{
    let mut next = end;
    for (row, &count) in counts.iter().enumerate() {
        if count < 2 {
            next = mark_all(table, row, ranks, 1, queue, next);
        }
    }
    next
}
