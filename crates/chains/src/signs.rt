// The bytes of a text, and what each is.

ghost use Rattle.std.specs.Prelude.{◌≡◌};
ghost use Rattle.chains.specs.Signs.{start_of, belongs, first_or, goes_on};
ghost use Rattle.chains.specs.Form.{lead};

// Which bytes a run is of: spaces; spaces and minus signs; digits.
#[derive(Clone, Copy)]
pub enum Class {
    Blank,
    Denial,
    Number,
}

// What a unit starts with, past its spaces and minus signs.
#[derive(Clone, Copy)]
pub enum Start {
    Digits,
    Bracket,
    Neither,
}

// Whether a byte is of the class.
fn within(class: Class, byte: u8) -> bool
    ensures { result ≡ belongs class byte }
{
    match class {
        Class::Blank => byte == b' ',
        Class::Denial => byte == b' ' || byte == b'-',
        Class::Number => matches!(byte, b'0'..=b'9'),
    }
}

// How many bytes of the class stand at the front.
pub fn run(text: &[u8], class: Class) -> usize
    ensures { result ≡ lead class text.now }
{
    text.iter().take_while(|byte| within(class, **byte)).count()
}

// What the bytes start with, where a unit is due and its spaces and minus signs are passed.
pub fn start_of(body: &[u8]) -> Start
    ensures { result ≡ start_of body.now }
{
    match body {
        [b'0'..=b'9', ..] => Start::Digits,
        [b'(', ..] => Start::Bracket,
        _ => Start::Neither,
    }
}

// Whether a mark that joins any number of units may stand after `join`.
fn fits(join: u8, next: u8) -> bool
    ensures { result ≡ first_or join next }
{
    join == 0 || join == next
}

// Whether the chain goes on with `next`; `join` is what joins its units so far, 0 where there is only one.
pub fn goes_on(join: u8, next: u8) -> bool
    ensures { result ≡ goes_on join next }
{
    match next {
        b'&' | b'|' => fits(join, next),
        b'>' | b'=' => join == 0,
        _ => false,
    }
}
