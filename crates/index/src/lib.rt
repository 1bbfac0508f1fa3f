// The index: which rows contain a literal. A cell is one of a row's eight places for literals: those of row r are numbered from 8r on. The cells
// that hold a literal are a list, lowest first: it starts at the literal's head and goes on by the links of its cells.
#![tactic(auto)]

ghost use Rattle.std.specs.Prelude.{◌≡◌, map, ◌+◌, ◌*◌, ◌≤◌, length, replicate};
ghost use Rattle.meaning.specs.Tests.{none};
ghost use Rattle.literals.specs.Row.{most_literals, numbers_at, decode, rows_in, Fit};
ghost use Rattle.index.specs.Index.{heads_of, links_of};
ghost use Rattle.index.specs.Listing.{Listed};

use literals::{MOST_LITERALS, WIDTH};

// Puts the cells of a row in front of their lists. Gives how many literals the row has.
fn list_row(table: &[i16], row: usize, heads: &mut [u16], links: &mut [u16]) -> usize
    requires fit { Fit (length heads.old) (row + 1) table.now }
    requires row_in_bounds { most_literals * (row + 1) ≤ length links.old }
    ensures value { result ≡ length (decode (numbers_at table.now row)) }
    ensures listed { Listed table.now (most_literals * row) result heads.old links.old heads.new links.new }
{
    let base = WIDTH * row;
    let first = MOST_LITERALS * row;
    for (j, &l) in table[base..base + MOST_LITERALS].iter().enumerate() {
        if l == 0 {
            return j;
        }
        let p = literals::place(l);
        links[first + j] = heads[p];
        heads[p] = (first + j) as u16;
    }
    MOST_LITERALS
}

// Lists the cells of the rows in use, from the last row on, so that each goes in front of those of its literal; and notes how many
// literals each row has. A 0 stands in no list. `rounds` lends heads that are all 65535, and room for exactly these rows.
pub fn fill(table: &[i16], rows: usize, heads: &mut [u16], links: &mut [u16], counts: &mut [u8])
    requires fit { Fit (length heads.old) rows table.now }
    requires links_len { (length links.old ≡ most_literals * rows) × (length counts.old ≡ rows) }
    requires heads_value { heads.old ≡ replicate (length heads.old) none }
    ensures heads_after { heads.new ≡ heads_of (length heads.old) rows table.now }
    ensures links_after { links.new ≡ links_of rows table.now links.old }
    ensures counts_after { counts.new ≡ map length (rows_in rows table.now) }
{
    for row in (0..rows).rev() {
        counts[row] = list_row(table, row, heads, links) as u8;
    }
}
