// Formulae in plain text on standard input, one a line. For each, on standard output, its prefix bytes in hex and its rows in text, or the line again
// and why it is refused.
#![tactic(auto)]

mod answering;
mod pieces;
mod sentences;
mod showing;

ghost use Rattle.std.specs.Prelude.{◌+◌, ◌*◌, ◌≤◌, length};

use input::{line_length, read_full};
use std::io;

// The most bytes of input that are taken.
const MOST_INPUT: usize = 32768;

// Answers each line, with an empty line between two answers. The buffers are for one line's rows, its bytes and what is shown of it.
fn answer_lines(
    rt: &impl Print,
    input: &[u8],
    table: &mut [i16],
    bytes: &mut [u8],
    page: &mut [u8],
) -> io::Result<()>
    requires { (2 * length input.now ≤ length bytes.old) × (6 * length input.now + 4 ≤ length page.old) }
{
    let mut at = 0;
    // A while: the next line begins where this one ends.
    while at < input.len() {
        if 0 < at {
            sentences::say(rt, b"\n")?;
        }
        let end = at + line_length(&input[at..]);
        answering::answer(rt, &input[at..end], table, bytes, page)?;
        at = end + 1;
    }
    Ok(())
}

// Reads the input, and answers its lines. No input at all asks for help.
fn main(rt: HostRuntime) -> io::Result<()> {
    let mut input = [0u8; 32769];
    let n = read_full(&mut rt.reader(), &mut input)?;
    if n == 0 {
        return sentences::help(rt.stderr());
    }
    if MOST_INPUT < n {
        return sentences::complain(
            rt.stderr(),
            b"spell: input too long: more than 32768 bytes\n",
        );
    }
    let mut table = [0i16; 18432];
    let mut bytes = [0u8; 65536];
    let mut page = [0u8; 196612];
    answer_lines(&rt, &input[..n], &mut table, &mut bytes, &mut page)
}
