// The words of a line, runs of bytes that are no blanks, counted from 0.

ghost use Rattle.std.specs.Prelude.{◌≡◌, ◌≤◌, ◌&&◌, leb, length, drop};
ghost use Rattle.meaning.specs.Tests.{all};
ghost use Rattle.dimacs.specs.Words.{since};
ghost use Rattle.dimacs.specs.Gathering.{Place};
ghost use Rattle.orders.specs.Words.{ends_at, in_word, is_blank, rest_at, word_at};

// Whether each byte of a word is from one byte up to another.
pub fn is_between(word: &[u8], low: u8, high: u8) -> bool
    ensures { result ≡ all (λ c. leb low c && leb c high) word.now }
{
    word.iter().all(|byte| low <= *byte && *byte <= high)
}

// The place of the next byte of a word, or the line's end.
fn next_word(line: &[u8], at: usize) -> usize
    requires { at ≤ length line.now }
    ensures { Place line.now result (since in_word (drop at line.now)) }
{
    let rest = &line[at..];
    at + rest
        .iter()
        .position(|byte| *byte != b' ')
        .unwrap_or(rest.len())
}

// The place of the next blank, or the line's end.
fn word_end(line: &[u8], at: usize) -> usize
    requires { at ≤ length line.now }
    ensures { Place line.now result (since is_blank (drop at line.now)) }
{
    let rest = &line[at..];
    at + rest
        .iter()
        .position(|byte| *byte == b' ')
        .unwrap_or(rest.len())
}

// The place where a word begins, or the line's end where there is no such word.
pub fn word_place(line: &[u8], k: usize) -> usize
    ensures { Place line.now result (rest_at k line.now) }
{
    let mut at = next_word(line, 0);
    for n in 0..k {
        at = next_word(line, word_end(line, at));
    }
    at
}

// The line from a word on.
pub fn rest(line: &[u8], k: usize) -> &[u8]
    ensures { result.now ≡ rest_at k line.now }
{
    let from = word_place(line, k);
    &line[from..]
}

// A word; nothing where there are fewer.
pub fn word(line: &[u8], k: usize) -> &[u8]
    ensures { result.now ≡ word_at k line.now }
{
    let from = word_place(line, k);
    let to = word_end(line, from);
    &line[from..to]
}

// Whether there are no more words than so many.
pub fn ends_at(line: &[u8], k: usize) -> bool
    ensures { result ≡ ends_at k line.now }
{
    word_place(line, k) == line.len()
}
