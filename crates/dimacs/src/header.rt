// The header of a text: where it stands and what it counts.

ghost use Rattle.std.specs.Prelude.{◌≡◌, false};
ghost use Rattle.dimacs.specs.Words.{words};
ghost use Rattle.dimacs.specs.Gathering.{Place};
ghost use Rattle.dimacs.specs.Form.{counts_in, header_in, header_line, past_comments};

use crate::words::{BEYOND, line_end, next_word, number_at};

// The variables and the clauses that a header counts.
#[derive(Clone, Copy)]
pub struct Counts {
    pub variables: usize,
    pub clauses: usize,
}

// The place of the header, past the comment lines.
pub fn header_place(text: &[u8]) -> usize
    ensures { Place text.now result (past_comments false text.now) }
{
    let mut i = 0;
    // A while: where the next line starts, only the end of this one tells.
    while i < text.len() && text[i] == b'c' {
        i = line_end(text, i);
        if i < text.len() {
            i += 1;
        }
    }
    i
}

// The two numbers behind `p cnf`, which are all that may stand there; none where they break the form.
fn counts_in(line: &[u8]) -> Option<Counts>
    ensures { result ≡ counts_in (words line.now) }
{
    let first = next_word(line, 0);
    if first == line.len() {
        return None;
    }
    let v = number_at(line, first);
    let second = next_word(line, v.end);
    if second == line.len() {
        return None;
    }
    let n = number_at(line, second);
    let last = next_word(line, n.end);
    if last < line.len() {
        return None;
    }
    if v.value < BEYOND && n.value < BEYOND {
        return Some(Counts {
            variables: v.value,
            clauses: n.value,
        });
    }
    None
}

// What the header's line counts, if it keeps the form.
pub fn header_in(line: &[u8]) -> Option<Counts>
    ensures { result ≡ header_in line.now }
{
    counts_in(line.strip_prefix(b"p cnf ")?)
}

// What the text's header counts, whatever follows it, if it keeps the form.
pub fn header(text: &[u8]) -> Option<Counts>
    ensures { result ≡ header_in (header_line text.now) }
{
    let start = header_place(text);
    let end = line_end(text, start);
    header_in(&text[start..end])
}
