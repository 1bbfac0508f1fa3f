// Propagation: the index of a table and its ranks, and from both the supports, or what literals reach.

ghost use Rattle.std.specs.Prelude.{◌≡◌, false, ◌+◌, ◌*◌, ◌≤◌, length, replicate};
ghost use Rattle.meaning.specs.Tests.{none, tabulate};
ghost use Rattle.meaning.specs.Rounds.{ranks_of, support_of};
ghost use Rattle.literals.specs.Row.{most_literals, rows_in, Fit};
ghost use Rattle.findings.specs.Reach.{reached_asked};

use crate::ranks::{rank_all, start_ranks};
use findings::reach::reach_asked;
use findings::supports::{clear, write_supports};
use findings::{NONE, PLACES};
use literals::MOST_LITERALS;

// Room for the rows of any table and their cells, and for those of one with few rows: room is cleared when it is made, which is most of what a
// small board would pay.
const MOST_ROWS: usize = 2048;

const MOST_CELLS: usize = 16384;

const FEW_ROWS: usize = 64;

const FEW_CELLS: usize = 512;

// Propagates, with room for the index, the queue and the rows' counts.
fn propagate_in(
    table: &[i16],
    rows: usize,
    held: &[bool],
    ranks: &mut [u16],
    from: usize,
    supports: &mut [u16],
    p: usize,
    marks: &mut [bool],
    heads: &mut [u16],
    links: &mut [u16],
    queue: &mut [u16],
    counts: &mut [u8],
)
    requires fit { Fit (length ranks.old) rows table.now }
    requires ranks_in_bounds { (length ranks.old ≤ length held.now) × (from + length supports.old ≤ length ranks.old) }
    requires marks_value { length marks.old ≡ length ranks.old → marks.old ≡ replicate (length ranks.old) false }
    requires heads_value { heads.old ≡ replicate (length ranks.old) none }
    requires links_len { (length links.old ≡ most_literals * rows) × (length ranks.old ≤ length queue.old) × (length counts.old ≡ rows) }
    ensures ranks_after { ranks.new ≡ ranks_of (length ranks.old) (rows_in rows table.now) held.now }
    ensures supports_after { supports.new ≡ tabulate (length supports.old)
        (λ i. support_of (length ranks.old) (rows_in rows table.now) held.now (from + i)) }
    ensures marks_after { length marks.old ≡ length ranks.old →
        marks.new ≡ reached_asked (length ranks.old) (rows_in rows table.now) held.now p }
{
    index::fill(table, rows, heads, links, counts);
    let end = rank_all(table, rows, heads, links, held, ranks, queue, counts);
    if marks.len() == ranks.len() {
        reach_asked(table, rows, heads, links, held, ranks, p, marks);
    }
    write_supports(table, rows, heads, links, ranks, queue, end, from, supports);
}

// Propagates, with room for so many rows and cells.
fn propagate_with_room<const ROWS: usize, const CELLS: usize>(
    table: &[i16],
    rows: usize,
    held: &[bool],
    ranks: &mut [u16],
    from: usize,
    supports: &mut [u16],
    p: usize,
    marks: &mut [bool],
)
    requires fit { Fit (length ranks.old) rows table.now }
    requires ranks_in_bounds { (length ranks.old ≤ length held.now) × (from + length supports.old ≤ length ranks.old) }
    requires marks_value { length marks.old ≡ length ranks.old → marks.old ≡ replicate (length ranks.old) false }
    requires room { (rows ≤ ROWS) × (ROWS ≤ 2048) × (CELLS ≡ most_literals * ROWS) }
    ensures ranks_after { ranks.new ≡ ranks_of (length ranks.old) (rows_in rows table.now) held.now }
    ensures supports_after { supports.new ≡ tabulate (length supports.old)
        (λ i. support_of (length ranks.old) (rows_in rows table.now) held.now (from + i)) }
    ensures marks_after { length marks.old ≡ length ranks.old →
        marks.new ≡ reached_asked (length ranks.old) (rows_in rows table.now) held.now p }
{
    let places = ranks.len();
    let cells = MOST_LITERALS * rows;
    let mut heads = [NONE; PLACES];
    let mut queue = [0; PLACES];
    let mut links = [0; CELLS];
    let mut counts = [0; ROWS];
    propagate_in(
        table,
        rows,
        held,
        ranks,
        from,
        supports,
        p,
        marks,
        &mut heads[..places],
        &mut links[..cells],
        &mut queue[..places],
        &mut counts[..rows],
    );
}

// Propagates: the ranks of the literals; the supports of as many places from `from` on as are lent; and, where a mark for each place is lent, what
// is asked of p is reached.
fn propagate_all(
    table: &[i16],
    rows: usize,
    held: &[bool],
    ranks: &mut [u16],
    from: usize,
    supports: &mut [u16],
    p: usize,
    marks: &mut [bool],
)
    requires fit { Fit (length ranks.old) rows table.now }
    requires ranks_in_bounds { (length ranks.old ≤ length held.now) × (from + length supports.old ≤ length ranks.old) }
    requires marks_value { length marks.old ≡ length ranks.old → marks.old ≡ replicate (length ranks.old) false }
    ensures ranks_after { ranks.new ≡ ranks_of (length ranks.old) (rows_in rows table.now) held.now }
    ensures supports_after { supports.new ≡ tabulate (length supports.old)
        (λ i. support_of (length ranks.old) (rows_in rows table.now) held.now (from + i)) }
    ensures marks_after { length marks.old ≡ length ranks.old →
        marks.new ≡ reached_asked (length ranks.old) (rows_in rows table.now) held.now p }
{
    if rows <= FEW_ROWS {
        propagate_with_room::<FEW_ROWS, FEW_CELLS>(
            table, rows, held, ranks, from, supports, p, marks,
        );
        return;
    }
    propagate_with_room::<MOST_ROWS, MOST_CELLS>(
        table, rows, held, ranks, from, supports, p, marks,
    );
}

// The ranks of the literals, and the supports of as many places from `from` on as are lent. Without rows there is nothing to index. `board` has
// tested the rows.
pub fn propagate(
    table: &[i16],
    rows: usize,
    held: &[bool],
    ranks: &mut [u16],
    from: usize,
    supports: &mut [u16],
)
    requires fit { Fit (length ranks.old) rows table.now }
    requires ranks_in_bounds { (length ranks.old ≤ length held.now) × (from + length supports.old ≤ length ranks.old) }
    ensures ranks_after { ranks.new ≡ ranks_of (length ranks.old) (rows_in rows table.now) held.now }
    ensures supports_after { supports.new ≡ tabulate (length supports.old)
        (λ i. support_of (length ranks.old) (rows_in rows table.now) held.now (from + i)) }
{
    if rows == 0 {
        start_ranks(held, ranks);
        clear(supports);
        return;
    }
    let mut none = [false; 1];
    propagate_all(table, rows, held, ranks, from, supports, 0, &mut none[..0]);
}

// The ranks of the literals, and the premises that the literal at p reaches; where p is no place, those that either literal of the
// symbol that blame takes reaches, or none where there is no such symbol. `board` has tested the rows, and lends a mark for each place, none of them
// set. No Option: any number that is no place asks for that symbol, so a caller owes no bound on p.
pub fn trace(
    table: &[i16],
    rows: usize,
    held: &[bool],
    ranks: &mut [u16],
    p: usize,
    marks: &mut [bool],
)
    requires fit { Fit (length ranks.old) rows table.now }
    requires ranks_in_bounds { (length ranks.old ≤ length held.now) × (length marks.old ≡ length ranks.old) }
    requires marks_value { marks.old ≡ replicate (length ranks.old) false }
    ensures ranks_after { ranks.new ≡ ranks_of (length ranks.old) (rows_in rows table.now) held.now }
    ensures marks_after { marks.new ≡ reached_asked (length ranks.old) (rows_in rows table.now) held.now p }
{
    let mut none = [NONE; 1];
    propagate_all(table, rows, held, ranks, 0, &mut none[..0], p, marks);
}
