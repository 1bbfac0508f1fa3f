// The bytes of a command: its kind, its literal, and how far its body and its formula go.

ghost use Rattle.std.specs.Prelude.{◌≡◌, ◌≤◌, length};
ghost use Rattle.lines.specs.Commands.{body_length, command_of, formula_length, literal_in};

use formula::reading::LEVELS;

// What the kind byte of a command says.
#[derive(Clone, Copy)]
pub enum Command {
    Open,
    Rule,
    Hold,
    Drop,
    Ask,
    Why,
    Other,
}

// The command of a kind byte.
impl From<u8> for Command {
    fn from(kind: u8) -> Self
        ensures { result ≡ command_of kind }
    {
        match kind {
            1 => Command::Open,
            2 => Command::Rule,
            3 => Command::Hold,
            4 => Command::Drop,
            5 => Command::Ask,
            6 => Command::Why,
            _ => Command::Other,
        }
    }
}

// How long a command's own body is.
pub fn body_length(command: Command) -> usize
    ensures { result ≡ body_length command }
{
    match command {
        Command::Open => 1,
        Command::Rule => 0,
        Command::Hold => 2,
        Command::Drop => 2,
        Command::Ask => 2,
        Command::Why => 2,
        Command::Other => 0,
    }
}

// The literal in a body of two bytes, low byte first.
pub fn literal_in(body: &[u8]) -> i16
    requires { 2 ≤ length body.now }
    ensures { result ≡ literal_in body.now }
{
    let n = body[0] as usize + 256 * (body[1] as usize);
    if n < 32768 {
        return n as i16;
    }
    (n as i32 - 65536) as i16
}

// How many bytes the formula at the front of `body` takes; all of them where it is faulty.
pub fn formula_length(body: &[u8], symbols: usize) -> usize
    ensures { result ≡ formula_length symbols body.now }
{
    match formula::reading::read(body, symbols, LEVELS) {
        Ok(count) => count,
        Err(_) => body.len(),
    }
}
