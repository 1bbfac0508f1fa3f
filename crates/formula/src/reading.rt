// From bytes to a formula: how many bytes it takes, or the first fault and its place.

ghost use Rattle.std.specs.Prelude.{◌≡◌, ◌+◌, ◌≤◌};
ghost use Rattle.formula.specs.Kinds.{kind_of};
ghost use Rattle.formula.specs.Parse.{parse, symbol_at, whole_of};
ghost use Rattle.formula.specs.Answers.{broken, read_of, past, extent};

use literals::refusal::Refusal;

// An operand may stand so deep and no deeper.
pub const LEVELS: usize = 16;

// The kinds that join two operands.
#[derive(Drop)]
pub enum Join {
    And,
    Or,
    Implies,
    Same,
}

// What a kind byte says.
#[derive(Drop)]
pub enum Kind {
    Symbol,
    Not,
    Two(Join),
    Unknown,
}

// Where a formula breaks: why it is refused, and the place of the byte at fault. Places count from the front of the part that is read.
#[derive(Clone, Copy)]
pub struct Break {
    pub why: Refusal,
    pub place: usize,
}

// The answer where a formula breaks.
pub fn breaks(why: Refusal, place: usize) -> Result<usize, Break>
    ensures { result ≡ broken why place }
{
    Err(Break { why, place })
}

pub fn kind_of(byte: u8) -> Kind
    ensures { result ≡ kind_of byte }
{
    match byte {
        0x10 => Kind::Symbol,
        0x11 => Kind::Not,
        0x12 => Kind::Two(Join::And),
        0x13 => Kind::Two(Join::Or),
        0x14 => Kind::Two(Join::Implies),
        0x15 => Kind::Two(Join::Same),
        _ => Kind::Unknown,
    }
}

// The answer of a part, where the part starts `skipped` bytes into the whole. Both lie in one slice, so that the sum fits.
pub fn past_by(skipped: usize, answer: Result<usize, Break>) -> Result<usize, Break>
    requires { skipped + extent answer ≤ 0x7fff_ffff_ffff_ffff }
    ensures { result ≡ past skipped answer }
{
    match answer {
        Ok(count) => Ok(skipped + count),
        Err(at) => Err(Break {
            why: at.why,
            place: skipped + at.place,
        }),
    }
}

// A symbol's own bytes: its kind and its number.
fn read_symbol(body: &[u8], symbols: usize) -> Result<usize, Break>
    ensures { result ≡ read_of (symbol_at symbols body.now) }
{
    if body.len() == 0 {
        return breaks(Refusal::CutShort, 1);
    }
    let number = body[0] as usize;
    if number == 0 || symbols < number {
        return breaks(Refusal::BadLiteral, 1);
    }
    Ok(2)
}

// Reads one formula from the front of `bytes`, with `depth` levels left for it and its operands.
pub fn read(bytes: &[u8], symbols: usize, depth: usize) -> Result<usize, Break>
    ensures { result ≡ read_of (parse symbols depth bytes.now) }
{
    if depth == 0 {
        return breaks(Refusal::TooDeep, 0);
    }
    if bytes.len() == 0 {
        return breaks(Refusal::CutShort, 0);
    }
    let body = &bytes[1..];
    match kind_of(bytes[0]) {
        Kind::Symbol => read_symbol(body, symbols),
        Kind::Not => past_by(1, read(body, symbols, depth - 1)),
        Kind::Two(_) => {
            let count = past_by(1, read(body, symbols, depth - 1))?;
            past_by(count, read(&bytes[count..], symbols, depth - 1))
        }
        Kind::Unknown => breaks(Refusal::UnknownKind, 0),
    }
}

// Reads the whole bytes as one formula: nothing may follow it.
pub fn read_whole(bytes: &[u8], symbols: usize) -> Result<usize, Break>
    ensures { result ≡ read_of (whole_of symbols bytes.now) }
{
    let count = read(bytes, symbols, LEVELS)?;
    if count < bytes.len() {
        return breaks(Refusal::BytesLeftOver, count);
    }
    Ok(count)
}
