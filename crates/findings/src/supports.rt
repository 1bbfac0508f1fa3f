// The support of a literal: the lowest-numbered row that gave it its rank.
// No heap: the queue lies in what is lent, and its end is told.

ghost use Rattle.std.specs.Prelude.{◌≡◌, ◌+◌, ◌<◌, ◌≤◌, length};
ghost use Rattle.meaning.specs.Tests.{tabulate, none};
ghost use Rattle.meaning.specs.Rounds.{first_giver};
ghost use Rattle.literals.specs.Row.{rows_in, Fit};
ghost use Rattle.index.specs.Index.{Index};
ghost use Rattle.findings.specs.Ranks.{below, support_from};
ghost use Rattle.findings.specs.Queue.{AllQueued};

use crate::NONE;
use literals::{MOST_LITERALS, WIDTH};

// The lowest-numbered row that gives the literal at p in round k, else NONE: of the rows that contain it, lowest first, each is left at the
// first literal that disqualifies it.
fn support_row(
    table: &[i16],
    rows: usize,
    heads: &[u16],
    links: &[u16],
    p: usize,
    ranks: &[u16],
    k: u16,
) -> u16
    requires fit { Fit (length ranks.now) rows table.now }
    requires index { Index (length ranks.now) rows table.now heads.now links.now }
    requires p_in_bounds { p < length ranks.now }
    ensures { result ≡ first_giver (below k ranks.now) (rows_in rows table.now) p }
{
    let cells = MOST_LITERALS * rows;
    let mut cell = heads[p] as usize;
    // A loop: the next cell is the one that this cell's link names.
    'rows: loop {
        if cell >= cells {
            break NONE;
        }
        let row = cell / MOST_LITERALS;
        cell = links[cell] as usize;
        let base = WIDTH * row;
        for &l in &table[base..base + MOST_LITERALS] {
            if l == 0 {
                break;
            }
            if literals::place(l) != p && ranks[literals::place(literals::opposite(l))] >= k {
                continue 'rows;
            }
        }
        break row as u16;
    }
}

// The support that the ranks tell: for a place with a rank above 0, the row that gave it. `rounds` has the rows indexed.
pub fn support(
    table: &[i16],
    rows: usize,
    heads: &[u16],
    links: &[u16],
    p: usize,
    ranks: &[u16],
) -> u16
    requires fit { Fit (length ranks.now) rows table.now }
    requires index { Index (length ranks.now) rows table.now heads.now links.now }
    requires p_in_bounds { p < length ranks.now }
    ensures { result ≡ support_from (rows_in rows table.now) ranks.now p }
{
    let rank = ranks[p];
    if rank == 0 || rank == NONE {
        return NONE;
    }
    support_row(table, rows, heads, links, p, ranks, rank)
}

// No support anywhere.
pub fn clear(supports: &mut [u16])
    ensures { supports.new ≡ tabulate (length supports.old) (λ i. none) }
{
    supports.fill(NONE);
}

// Writes the supports of the places that stand in the queue, over none: the others have no rank, and so no support.
fn search_supports(
    table: &[i16],
    rows: usize,
    heads: &[u16],
    links: &[u16],
    ranks: &[u16],
    queue: &[u16],
    end: usize,
    from: usize,
    supports: &mut [u16],
)
    requires fit { Fit (length ranks.now) rows table.now }
    requires index { Index (length ranks.now) rows table.now heads.now links.now }
    requires supports_in_bounds { from + length supports.old ≤ length ranks.now }
    requires all_queued { AllQueued ranks.now queue.now end }
    requires end_in_bounds { end ≤ length queue.now }
    requires supports_value { supports.old ≡ tabulate (length supports.old) (λ i. none) }
    ensures { supports.new ≡ tabulate (length supports.old)
        (λ i. support_from (rows_in rows table.now) ranks.now (from + i)) }
{
    for &place in &queue[..end] {
        let p = place as usize;
        if from <= p && p - from < supports.len() {
            supports[p - from] = support(table, rows, heads, links, p, ranks);
        }
    }
}

// The supports that the ranks tell, of as many places from `from` on as are lent. The places that have a rank stand in the queue that `rounds` lends.
pub fn write_supports(
    table: &[i16],
    rows: usize,
    heads: &[u16],
    links: &[u16],
    ranks: &[u16],
    queue: &[u16],
    end: usize,
    from: usize,
    supports: &mut [u16],
)
    requires fit { Fit (length ranks.now) rows table.now }
    requires index { Index (length ranks.now) rows table.now heads.now links.now }
    requires supports_in_bounds { from + length supports.old ≤ length ranks.now }
    requires all_queued { AllQueued ranks.now queue.now end }
    requires end_in_bounds { end ≤ length queue.now }
    ensures { supports.new ≡ tabulate (length supports.old)
        (λ i. support_from (rows_in rows table.now) ranks.now (from + i)) }
{
    clear(supports);
    search_supports(table, rows, heads, links, ranks, queue, end, from, supports);
}
