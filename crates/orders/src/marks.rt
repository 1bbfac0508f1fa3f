// The marks of a pair table: a word for each position of the first valve, in it a mark for each position of the second.

ghost use Rattle.std.specs.Prelude.{◌≡◌, true, ◌+◌, ◌<◌, ◌≤◌, length};
ghost use Rattle.orders.specs.Marks.{are_marks, are_rows, marked_by, pairs_in, rows_marked, table_fits};

use crate::words::{ends_at, is_between, word};
use positions::variables::has_count;

// Whether a word is so many marks.
fn are_marks(word: &[u8], count: usize) -> bool
    ensures { result ≡ are_marks count word.now }
{
    is_between(word, b'0', b'1') && word.len() == count
}

// Whether so many words from a word on are so many marks each.
fn are_rows(line: &[u8], from: usize, rows: usize, count: usize) -> bool
    requires { (rows ≤ 7) × (from ≤ 5) }
    ensures { result ≡ are_rows line.now from rows count }
{
    for k in 0..rows {
        if !are_marks(word(line, from + k), count) {
            return false;
        }
    }
    true
}

// Whether the marks are as many as two valves have positions; they are not looked at where a valve has a wrong number of them, which the call
// refuses.
pub fn table_fits(line: &[u8], rows: usize, count: usize) -> bool
    ensures { result ≡ table_fits line.now rows count }
{
    if !has_count(rows) {
        return true;
    }
    if !has_count(count) {
        return true;
    }
    if !ends_at(line, 5 + rows) {
        return false;
    }
    are_rows(line, 5, rows, count)
}

// The pairs that a word allows, its first mark at bit 0.
fn marked_by(word: &[u8]) -> usize
    requires { length word.now ≤ 7 }
    ensures value { result ≡ marked_by word.now }
    ensures upper_bound { result < 128 }
{
    let mut value = 0;
    for k in (0..word.len()).rev() {
        let bit = if word[k] == b'1' { 1 } else { 0 };
        value = 2 * value + bit;
    }
    value
}

// The pairs that so many words allow, each word seven bits above the one before.
fn rows_marked(line: &[u8], from: usize, rows: usize, count: usize) -> usize
    requires { (rows ≤ 7) × (count ≤ 7) × (from ≤ 5) × (are_rows line.now from rows count ≡ true) }
    ensures { result ≡ rows_marked line.now from rows }
{
    let mut value = 0;
    for k in (0..rows).rev() {
        value = 128 * value + marked_by(word(line, from + k));
    }
    value
}

// The pairs that a line's marks allow; none where a valve has a wrong number of positions.
pub fn pairs_in(line: &[u8], rows: usize, count: usize) -> usize
    requires { table_fits line.now rows count ≡ true }
    ensures { result ≡ pairs_in line.now rows count }
{
    if !has_count(rows) {
        return 0;
    }
    if !has_count(count) {
        return 0;
    }
    rows_marked(line, 5, rows, count)
}
