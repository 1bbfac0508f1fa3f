// Words of a text, and the numbers that they spell. Nothing is stored.

ghost use Rattle.std.specs.Prelude.{◌≡◌, ◌<◌, ◌≤◌, length, drop};
ghost use Rattle.dimacs.specs.Words.{beyond, ends, in_word, is_gap, number_of, since, up_to};
ghost use Rattle.dimacs.specs.Gathering.{grown, Place, Spells};

// A number in a text: its value, 32,768 for what breaks the form, and the place after it.
#[derive(Clone, Copy)]
pub struct Number {
    pub value: usize,
    pub end: usize,
}

// A literal in a text, or the 0 after a clause, as its symbol's number and its sign, and the place after it.
#[derive(Clone, Copy)]
pub struct Signed {
    pub symbol: usize,
    pub negative: bool,
    pub end: usize,
}

// What breaks the form counts as this number, which no header reaches. No Option: `number_of` in `dimacs/specs/Words` gives the number, and a literal
// beyond the header breaks the form in the same way.
pub const BEYOND: usize = 32768;

fn is_gap(byte: u8) -> bool
    ensures { result ≡ is_gap byte }
{
    byte == b' ' || byte == b'\n'
}

// The number with a digit more.
fn grow(n: usize, byte: u8) -> usize
    requires { n ≤ beyond }
    ensures { result ≡ grown n byte }
{
    match byte {
        b'0'..=b'9' => BEYOND.min(n * 10 + (byte - b'0') as usize),
        _ => BEYOND,
    }
}

// The place of the line's end, or of the text's.
pub fn line_end(text: &[u8], at: usize) -> usize
    requires { at ≤ length text.now }
    ensures { Place text.now result (since ends (drop at text.now)) }
{
    // No chain: one that counts by `take_while` takes a fifth more instructions on long lines, and up to half as long again.
    for i in at..text.len() {
        if text[i] == b'\n' {
            return i;
        }
    }
    text.len()
}

// The place of the next word, or the text's end.
pub fn next_word(text: &[u8], at: usize) -> usize
    requires { at ≤ length text.now }
    ensures { Place text.now result (since in_word (drop at text.now)) }
{
    at + text[at..].iter().take_while(|byte| is_gap(**byte)).count()
}

// The number that the bytes from a place up to a gap spell.
pub fn number_at(text: &[u8], at: usize) -> Number
    requires { at ≤ length text.now }
    ensures value_value { result.value ≡ number_of (up_to is_gap (drop at text.now)) }
    ensures place { Place text.now result.end (since is_gap (drop at text.now)) }
{
    let mut value = 0;
    for (k, byte) in text[at..].iter().enumerate() {
        if is_gap(*byte) {
            return Number { value, end: at + k };
        }
        value = grow(value, *byte);
    }
    Number {
        value,
        end: text.len(),
    }
}

// The literal that the bytes from a place up to a gap spell, or the 0 after a clause.
pub fn literal_at(text: &[u8], at: usize) -> Signed
    requires { at < length text.now }
    ensures spells { Spells (up_to is_gap (drop at text.now)) result.symbol result.negative }
    ensures place { Place text.now result.end (since is_gap (drop at text.now)) }
{
    if text[at] == b'-' {
        let n = number_at(text, at + 1);
        if n.value == 0 {
            return Signed {
                symbol: BEYOND,
                negative: false,
                end: n.end,
            };
        }
        return Signed {
            symbol: n.value,
            negative: true,
            end: n.end,
        };
    }
    let n = number_at(text, at);
    Signed {
        symbol: n.value,
        negative: false,
        end: n.end,
    }
}
