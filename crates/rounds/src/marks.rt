// Writing the rank of what a row gives.
// No heap: the queue lies in what is lent, and its end is told.

ghost use Rattle.std.specs.Prelude.{◌≡◌, ◌+◌, ◌<◌, eqb, length};
ghost use Rattle.meaning.specs.Tests.{member, none};
ghost use Rattle.meaning.specs.Rounds.{gives};
ghost use Rattle.literals.specs.Row.{numbers_at, decode, Fit};
ghost use Rattle.findings.specs.Ranks.{below};
ghost use Rattle.findings.specs.Queue.{Room, Queued};
ghost use Rattle.rounds.specs.Queue.{ranked};
ghost use Rattle.rounds.specs.Ranks.{open_in, mark};

use findings::NONE;
use literals::{MOST_LITERALS, WIDTH};

// Which literals of a row have an opposite without a rank below some k. No Option: of the three answers two tell no literal, each for its own reason.
#[derive(Clone, Copy)]
pub enum Open {
    Nothing,
    One(usize),
    More,
}

// The open literals of a row in round k. A row with two gives nothing, and is left at the second. `one` is the first, or 0, which is no literal, and
// is placed only where it stays alone.
fn open_in(table: &[i16], row: usize, ranks: &[u16], k: u16) -> Open
    requires { Fit (length ranks.now) (row + 1) table.now }
    ensures { result ≡ open_in (below k ranks.now) (decode (numbers_at table.now row)) }
{
    let base = WIDTH * row;
    // No Option: with one a call that propagates takes some 4 in 100 longer on a full board.
    let mut one: i16 = 0;
    for &l in &table[base..base + MOST_LITERALS] {
        if l == 0 {
            break;
        }
        if ranks[literals::place(literals::opposite(l))] >= k {
            if one != 0 && one != l {
                return Open::More;
            }
            one = l;
        }
    }
    if one == 0 {
        return Open::Nothing;
    }
    Open::One(literals::place(one))
}

// Writes rank k at place p and puts p at the end of the queue, if it has no rank. Gives the queue's end.
fn mark_place(p: usize, ranks: &mut [u16], k: u16, queue: &mut [u16], end: usize) -> usize
    requires p_in_bounds { p < length ranks.old }
    requires k_lt_none { k < none }
    requires room { Room ranked ranks.old queue.old end }
    ensures ranks_after { ranks.new ≡ mark k (eqb p) ranks.old }
    ensures queued { Queued ranked 0 ranks.old ranks.new queue.old end queue.new result }
{
    if ranks[p] != NONE {
        return end;
    }
    ranks[p] = k;
    queue[end] = p as u16;
    end + 1
}

// Writes rank k at each literal of the row that has no rank. Gives the queue's end.
pub fn mark_all(
    table: &[i16],
    row: usize,
    ranks: &mut [u16],
    k: u16,
    queue: &mut [u16],
    end: usize,
) -> usize
    requires fit { Fit (length ranks.old) (row + 1) table.now }
    requires k_lt_none { k < none }
    requires room { Room ranked ranks.old queue.old end }
    ensures ranks_after { ranks.new ≡ mark k (λ p. member p (decode (numbers_at table.now row))) ranks.old }
    ensures queued { Queued ranked 0 ranks.old ranks.new queue.old end queue.new result }
{
    let base = WIDTH * row;
    let mut next = end;
    for &l in &table[base..base + MOST_LITERALS] {
        if l == 0 {
            break;
        }
        next = mark_place(literals::place(l), ranks, k, queue, next);
    }
    next
}

// Writes rank k at each place that has no rank and that the row gives in round k. Gives the queue's end.
pub fn mark_row(
    table: &[i16],
    row: usize,
    ranks: &mut [u16],
    k: u16,
    queue: &mut [u16],
    end: usize,
) -> usize
    requires fit { Fit (length ranks.old) (row + 1) table.now }
    requires k_lt_none { k < none }
    requires room { Room ranked ranks.old queue.old end }
    ensures ranks_after { ranks.new ≡
        mark k (gives (below k ranks.old) (decode (numbers_at table.now row))) ranks.old }
    ensures queued { Queued ranked 0 ranks.old ranks.new queue.old end queue.new result }
{
    match open_in(table, row, ranks, k) {
        Open::Nothing => mark_all(table, row, ranks, k, queue, end),
        Open::One(p) => mark_place(p, ranks, k, queue, end),
        Open::More => end,
    }
}
