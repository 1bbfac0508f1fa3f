// Ranks, round by round.

ghost use Rattle.std.specs.Prelude.{◌≡◌, false, map, ◌⊎◌, ℕ, ◌+◌, ◌<◌, ◌≤◌, length};
ghost use Rattle.meaning.specs.Tests.{none};
ghost use Rattle.meaning.specs.Literals.{has};
ghost use Rattle.meaning.specs.Rounds.{ranks_of};
ghost use Rattle.literals.specs.Row.{rows_in, Fit};
ghost use Rattle.index.specs.Index.{Index};
ghost use Rattle.findings.specs.Queue.{Room, Queued, AllQueued};
ghost use Rattle.rounds.specs.Ranks.{ranks_after, start_ranks};
ghost use Rattle.rounds.specs.Queue.{ranked, Premises, Frontier};
ghost use Rattle.rounds.specs.Visits.{Settled, Counts};

use crate::visits::{visit_rows, visit_units};
use findings::NONE;

// One round: rank k + 1 for each place that has no rank and that some row gives from the ranks up to k. The places of rank k stand in
// the queue from `from` to `to`, its end: only a row that contains the opposite of one of them can give something new, and in round 1 a row of
// one literal. Gives the new end.
fn round(
    table: &[i16],
    rows: usize,
    heads: &[u16],
    links: &[u16],
    ranks: &mut [u16],
    k: u16,
    queue: &mut [u16],
    from: usize,
    to: usize,
    counts: &mut [u8],
) -> usize
    requires fit { Fit (length ranks.old) rows table.now }
    requires index { Index (length ranks.old) rows table.now heads.now links.now }
    requires k_bound { (k + 1 < none) × (from ≤ to) × (length counts.old ≡ rows) }
    requires room { Room ranked ranks.old queue.old to }
    requires frontier { Frontier ranks.old queue.old k from to }
    requires fact { (k ≡ 0) ⊎ Settled k (rows_in rows table.now) ranks.old }
    requires counts { Counts rows table.now queue.old from counts.old }
    requires counts_value { k ≡ 0 → counts.old ≡ map length (rows_in rows table.now) }
    ensures ranks_after { ranks.new ≡ ranks_after (k + 1) (rows_in rows table.now) ranks.old }
    ensures queued { Queued ranked 0 ranks.old ranks.new queue.old to queue.new result }
    ensures counts_2 { Counts rows table.now queue.new to counts.new }
{
    let mut end = to;
    if k == 0 {
        end = visit_units(table, rows, ranks, queue, to, counts);
    }
    visit_rows(
        table,
        rows,
        heads,
        links,
        ranks,
        k + 1,
        queue,
        from,
        to,
        end,
        counts,
    )
}

// Rank 0 for the held premises, and none for the other places.
pub fn start_ranks(held: &[bool], ranks: &mut [u16])
    requires { length ranks.old ≤ length held.now }
    ensures { ranks.new ≡ start_ranks (length ranks.old) held.now }
{
    for (p, rank) in ranks.iter_mut().enumerate() {
        *rank = if held[p] { 0 } else { NONE };
    }
}

// False only where none of the eight places from `first` on is held.
fn one_of_eight(held: &[bool], first: usize) -> bool
    requires { first + 8 ≤ length held.now }
    ensures { result ≡ false → (i : ℕ) → i < 8 → has held.now (first + i) ≡ false }
{
    let mut one = false;
    for &is_held in &held[first..first + 8] {
        one |= is_held;
    }
    one
}

// Puts the held premises into the queue. Few are held, so eight that are not are passed at once. Gives the queue's end.
fn queue_premises(held: &[bool], places: usize, queue: &mut [u16]) -> usize
    requires { (places ≤ length held.now) × (places ≤ length queue.old) × (places ≤ none) }
    ensures { Premises places held.now queue.new result }
{
    let mut end = 0;
    let mut p = 0;
    // A while: eight places that are not held are passed at once, any other place alone.
    while p < places {
        if p + 8 <= places {
            if !one_of_eight(held, p) {
                p += 8;
                continue;
            }
        }
        if held[p] {
            queue[end] = p as u16;
            end += 1;
        }
        p += 1;
    }
    end
}

// Rounds from the held premises until one adds nothing. The ranks are then those of the literals, and those that have one stand in the
// queue. Gives the queue's end.
pub fn rank_all(
    table: &[i16],
    rows: usize,
    heads: &[u16],
    links: &[u16],
    held: &[bool],
    ranks: &mut [u16],
    queue: &mut [u16],
    counts: &mut [u8],
) -> usize
    requires fit { Fit (length ranks.old) rows table.now }
    requires index { Index (length ranks.old) rows table.now heads.now links.now }
    requires ranks_in_bounds { (length ranks.old ≤ length held.now) × (length ranks.old ≤ length queue.old) }
    requires counts_value { counts.old ≡ map length (rows_in rows table.now) }
    ensures ranks_after { ranks.new ≡ ranks_of (length ranks.old) (rows_in rows table.now) held.now }
    ensures all_queued { AllQueued ranks.new queue.new result }
{
    start_ranks(held, ranks);
    let mut from = 0;
    let mut to = queue_premises(held, ranks.len(), queue);
    let mut k: u16 = 0;
    // A loop: that a round was the last is known only after it.
    loop {
        let end = round(table, rows, heads, links, ranks, k, queue, from, to, counts);
        if end == to {
            break;
        }
        from = to;
        to = end;
        k += 1;
    }
    to
}
