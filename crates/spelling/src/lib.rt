// Numbers, literals and words written into a lent buffer from a place on. Each function answers the place after what it wrote.
// No heap: what is written goes into what is lent, and the place after it is told.
#![tactic(auto)]

ghost use Rattle.std.specs.Prelude.{◌≡◌, ◌+◌, ◌*◌, ◌<◌, ◌≤◌, ◌++◌, length, map};
ghost use Rattle.spelling.specs.Text.{literal, literal_list, marked, natural, Put, shown};

// Writes a number in decimal.
pub fn put_natural(out: &mut [u8], at: usize, n: usize) -> usize
    requires { at + length (natural n) ≤ length out.old }
    ensures { Put out.old out.new at (natural n) result }
{
    if n < 10 {
        out[at] = 48 + n as u8;
        return at + 1;
    }
    let next = put_natural(out, at, n / 10);
    out[next] = 48 + (n % 10) as u8;
    next + 1
}

// Writes a number below 1,000 in decimal: a test or two in place of the calls of `put_natural`.
fn put_short(out: &mut [u8], at: usize, n: usize) -> usize
    requires n_bound { n < 1000 }
    requires n_in_bounds { at + length (natural n) ≤ length out.old }
    ensures { Put out.old out.new at (natural n) result }
{
    if n < 10 {
        out[at] = 48 + n as u8;
        return at + 1;
    }
    if n < 100 {
        out[at] = 48 + (n / 10) as u8;
        out[at + 1] = 48 + (n % 10) as u8;
        return at + 2;
    }
    out[at] = 48 + (n / 100) as u8;
    out[at + 1] = 48 + (n / 10 % 10) as u8;
    out[at + 2] = 48 + (n % 10) as u8;
    at + 3
}

// Writes a number as `put_natural` does, sooner where it is short, as a symbol's is.
fn put_symbol(out: &mut [u8], at: usize, n: usize) -> usize
    requires { at + length (natural n) ≤ length out.old }
    ensures { Put out.old out.new at (natural n) result }
{
    if n < 1000 {
        return put_short(out, at, n);
    }
    put_natural(out, at, n)
}

// Writes bytes as they are.
pub fn put_word(out: &mut [u8], at: usize, word: &[u8]) -> usize
    requires { at + length word.now ≤ length out.old }
    ensures { Put out.old out.new at word.now result }
{
    let end = at + word.len();
    out[at..end].copy_from_slice(word);
    end
}

// Writes a word and a number after it: there is room for twenty digits.
pub fn put_named(out: &mut [u8], at: usize, word: &[u8], n: usize) -> usize
    requires { at + length word.now + 20 ≤ length out.old }
    ensures put { Put out.old out.new at (word.now ++ natural n) result }
    ensures upper_bound { result ≤ at + length word.now + 20 }
{
    let mid = put_word(out, at, word);
    put_natural(out, mid, n)
}

// Writes a literal in decimal, with its sign where it is negative.
pub fn put_literal(out: &mut [u8], at: usize, l: i16) -> usize
    requires { at + length (literal l) ≤ length out.old }
    ensures { Put out.old out.new at (literal l) result }
{
    let n = literals::symbol(l);
    if l < 0 {
        out[at] = b'-';
        return put_symbol(out, at + 1, n);
    }
    put_symbol(out, at, n)
}

// Writes literals, a mark before each: there is room for it, a sign and five digits of each.
pub fn put_marked(out: &mut [u8], at: usize, mark: u8, part: &[i16]) -> usize
    requires { at + 7 * length part.now ≤ length out.old }
    ensures put { Put out.old out.new at (marked mark part.now) result }
    ensures upper_bound { result ≤ at + 7 * length part.now }
{
    let mut next = at;
    for l in part {
        out[next] = mark;
        next = put_literal(out, next + 1, *l);
    }
    next
}

// Writes literals, a space before each: there is room for a sign and five digits of each.
pub fn put_literals(out: &mut [u8], at: usize, part: &[i16]) -> usize
    requires { at + 7 * length part.now ≤ length out.old }
    ensures put { Put out.old out.new at (literal_list part.now) result }
    ensures upper_bound { result ≤ at + 7 * length part.now }
{
    put_marked(out, at, b' ', part)
}

// A byte as it is, or `?` where it does not print.
fn shown(byte: u8) -> u8
    ensures { result ≡ shown byte }
{
    match byte {
        b' '..=b'~' => byte,
        _ => b'?',
    }
}

// Writes a line again, each byte in its place.
pub fn put_shown(out: &mut [u8], at: usize, line: &[u8]) -> usize
    requires { at + length line.now ≤ length out.old }
    ensures put { Put out.old out.new at (map shown line.now) result }
    ensures value { result ≡ at + length line.now }
{
    for (k, byte) in line.iter().enumerate() {
        out[at + k] = shown(*byte);
    }
    at + line.len()
}
