// What literals reach through their supports.
// No heap: the queue lies in what is lent, and its end is told.

ghost use Rattle.std.specs.Prelude.{◌≡◌, ◌+◌, ◌<◌, ◌≤◌, eqb, length, replicate, false};
ghost use Rattle.meaning.specs.Rounds.{ranks_of};
ghost use Rattle.literals.specs.Row.{numbers_at, decode, rows_in, Fit};
ghost use Rattle.index.specs.Index.{Index};
ghost use Rattle.findings.specs.Queue.{marked, Room, Queued};
ghost use Rattle.findings.specs.Reach.{opposed, Followed, join, held_only, reached_from, reached_asked};

use crate::labels::earliest_clash;
use crate::supports::support;
use crate::{NONE, PLACES};
use literals::{MOST_LITERALS, WIDTH};

// Marks the literal at p and puts it at the end of the queue, if it is not marked. Gives the queue's end.
fn mark_literal(p: usize, marks: &mut [bool], queue: &mut [u16], end: usize) -> usize
    requires p_in_bounds { p < length marks.old }
    requires room { Room marked marks.old queue.old end }
    ensures marks_after { marks.new ≡ join marks.old (eqb p) }
    ensures queued { Queued marked false marks.old marks.new queue.old end queue.new result }
{
    if marks[p] {
        return end;
    }
    marks[p] = true;
    queue[end] = p as u16;
    end + 1
}

// Marks the opposites of a row's literals other than p. Gives the queue's end.
fn mark_others(
    table: &[i16],
    row: usize,
    p: usize,
    marks: &mut [bool],
    queue: &mut [u16],
    end: usize,
) -> usize
    requires fit { Fit (length marks.old) (row + 1) table.now }
    requires room { Room marked marks.old queue.old end }
    ensures marks_after { marks.new ≡ join marks.old (opposed p (decode (numbers_at table.now row))) }
    ensures queued { Queued marked false marks.old marks.new queue.old end queue.new result }
{
    let base = WIDTH * row;
    let mut next = end;
    for &l in &table[base..base + MOST_LITERALS] {
        if l == 0 {
            break;
        }
        if literals::place(l) != p {
            next = mark_literal(literals::place(literals::opposite(l)), marks, queue, next);
        }
    }
    next
}

// Marks what the marked literals lead to, and what that leads to: each literal of the queue is taken once, its support is searched, and
// the opposites of the support's other literals are put at the end.
fn follow(
    table: &[i16],
    rows: usize,
    heads: &[u16],
    links: &[u16],
    ranks: &[u16],
    marks: &mut [bool],
    queue: &mut [u16],
    end: usize,
)
    requires fit { Fit (length marks.old) rows table.now }
    requires index { Index (length marks.old) rows table.now heads.now links.now }
    requires ranks_len { length ranks.now ≡ length marks.old }
    requires room { Room marked marks.old queue.old end }
    requires queued { Queued marked false (replicate (length marks.old) false) marks.old queue.old 0 queue.old end }
    ensures { Followed (rows_in rows table.now) ranks.now marks.old marks.new }
{
    let mut next = end;
    let mut at = 0;
    // A while: the queue grows while it is gone through.
    while at < next {
        let p = queue[at] as usize;
        let row = support(table, rows, heads, links, p, ranks);
        if row != NONE {
            next = mark_others(table, row as usize, p, marks, queue, next);
        }
        at += 1;
    }
}

// Keeps the marks of the held premises only.
fn keep_held(held: &[bool], marks: &mut [bool])
    requires { length marks.old ≤ length held.now }
    ensures { marks.new ≡ held_only held.now marks.old }
{
    for (p, mark) in marks.iter_mut().enumerate() {
        *mark &= held[p];
    }
}

// The premises that the literals at p and q reach: afterwards exactly those are marked. The marks lent have none set.
fn reach(
    table: &[i16],
    rows: usize,
    heads: &[u16],
    links: &[u16],
    held: &[bool],
    ranks: &[u16],
    p: usize,
    q: usize,
    marks: &mut [bool],
)
    requires fit { Fit (length marks.old) rows table.now }
    requires index { Index (length marks.old) rows table.now heads.now links.now }
    requires marks_in_bounds { (length marks.old ≤ length held.now) × (p < length marks.old) × (q < length marks.old) }
    requires ranks_value { ranks.now ≡ ranks_of (length marks.old) (rows_in rows table.now) held.now }
    requires marks_value { marks.old ≡ replicate (length marks.old) false }
    ensures { marks.new ≡ reached_from (length marks.old) (rows_in rows table.now) held.now p q }
{
    let places = marks.len();
    let mut queue = [0; PLACES];
    let one = mark_literal(p, marks, &mut queue[..places], 0);
    let two = mark_literal(q, marks, &mut queue[..places], one);
    follow(
        table,
        rows,
        heads,
        links,
        ranks,
        marks,
        &mut queue[..places],
        two,
    );
    keep_held(held, marks);
}

// What ground and blame ask: the premises that the literal at p reaches; where p is no place, those that the symbol that blame takes reaches by
// either of its literals, or none where there is no such symbol. A literal without a rank reaches nothing. `rounds` lends the final ranks, the index
// of the rows, and marks of which none is set.
pub fn reach_asked(
    table: &[i16],
    rows: usize,
    heads: &[u16],
    links: &[u16],
    held: &[bool],
    ranks: &[u16],
    p: usize,
    marks: &mut [bool],
)
    requires fit { Fit (length marks.old) rows table.now }
    requires index { Index (length marks.old) rows table.now heads.now links.now }
    requires marks_in_bounds { length marks.old ≤ length held.now }
    requires ranks_value { ranks.now ≡ ranks_of (length marks.old) (rows_in rows table.now) held.now }
    requires marks_value { marks.old ≡ replicate (length marks.old) false }
    ensures { marks.new ≡ reached_asked (length marks.old) (rows_in rows table.now) held.now p }
{
    if p < marks.len() {
        if ranks[p] == NONE {
            return;
        }
        reach(table, rows, heads, links, held, ranks, p, p, marks);
        return;
    }
    if let Some(s) = earliest_clash(ranks) {
        reach(
            table,
            rows,
            heads,
            links,
            held,
            ranks,
            2 * s,
            2 * s + 1,
            marks,
        );
    }
}
