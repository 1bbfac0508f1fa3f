// DIMACS text from standard input, read onto a board of the header's variables; the board's rows as DIMACS text to standard output. What is refused
// is said in a line on standard error.
#![tactic(auto)]

ghost use Rattle.std.specs.Prelude.{◌≡◌, ◌+◌, ◌<◌, ◌≤◌, length};
ghost use Rattle.dimacs.specs.Words.{beyond};
ghost use Rattle.cnf.specs.Rewriting.{made, read_made, rows_made};

use board::Board;
use input::read_full;
use literals::refusal::Refusal;
use std::io;
use std::io::Stderr;

// The most bytes of input that are taken.
const MOST_INPUT: usize = 262144;

// Why a text is not rewritten: no board has so many symbols as its header counts variables; or a refusal, and how many clauses come before the first
// at fault.
#[derive(Clone, Copy)]
enum Fault {
    NoBoard(usize),
    Refused(Refusal, usize),
}

// Writes the rows of a board as text, and answers how many bytes it has.
fn write_rows(board: Board, table: &[i16], out: &mut [u8]) -> Result<usize, Fault>
    ensures { record { answer = result; out = out.new } ≡ rows_made table.now board out.old }
{
    let writing = dimacs::writing::write(board, table, out);
    let outcome = writing.outcome;
    match outcome {
        Ok(()) => Ok(writing.bytes),
        Err(why) => Err(Fault::Refused(why, 0)),
    }
}

// Reads a text onto a board, and writes its rows.
fn rewrite_on(board: Board, table: &mut [i16], text: &[u8], out: &mut [u8]) -> Result<usize, Fault>
    ensures { record { answer = result; out = out.new } ≡ read_made table.old board text.now out.old }
{
    let reading = dimacs::reading::read(board, table, text);
    let outcome = reading.outcome;
    match outcome {
        Ok(()) => write_rows(reading.board, table, out),
        Err(why) => Err(Fault::Refused(why, reading.clauses)),
    }
}

// Reads a text onto a board of the header's variables, and writes its rows.
fn rewrite(table: &mut [i16], text: &[u8], out: &mut [u8]) -> Result<usize, Fault>
    ensures { record { answer = result; out = out.new } ≡ made table.old text.now out.old }
{
    match dimacs::header::header(text) {
        None => Err(Fault::Refused(Refusal::BadText, 0)),
        Some(counts) => {
            let change = board::changes::open(counts.variables);
            let outcome = change.outcome;
            match outcome {
                Ok(()) => rewrite_on(change.board, table, text, out),
                Err(_) => Err(Fault::NoBoard(counts.variables)),
            }
        }
    }
}

// Says a line with a number in it.
fn say(err: Stderr, before: &[u8], n: usize, after: &[u8]) -> io::Result<()>
    requires { length before.now + 20 + length after.now ≤ 128 }
{
    let mut line = [0u8; 128];
    let at = spelling::put_named(&mut line, 0, before, n);
    let end = spelling::put_word(&mut line, at, after);
    err.write_all(&line[..end])
}

// Says why a text is refused, and where a clause is at fault which: the one behind so many.
fn say_refusal(err: Stderr, why: Refusal, before: usize) -> io::Result<()>
    requires { before < beyond }
{
    let clause = before + 1;
    match why {
        Refusal::BadText => err.write_all(
            b"cnf: refused 15: the text breaks the form, has not the header's number of clauses, or has a literal beyond its variables\n",
        ),
        Refusal::TooManySymbols => say(
            err,
            b"cnf: refused 7: clause ",
            clause,
            b" has more than 8 different symbols\n",
        ),
        Refusal::NoAssignment => say(
            err,
            b"cnf: refused 8: clause ",
            clause,
            b" has no literal\n",
        ),
        Refusal::TableFull => say(
            err,
            b"cnf: refused 9: clause ",
            clause,
            b" needs a row more than the 2048 there are\n",
        ),
        _ => say(err, b"cnf: refused ", u8::from(why) as usize, b"\n"),
    }
}

fn main(rt: HostRuntime) -> io::Result<()> {
    let mut input = [0u8; 262145];
    let n = read_full(&mut rt.reader(), &mut input)?;
    if MOST_INPUT < n {
        return rt
            .stderr()
            .write_all(b"cnf: input too long: more than 262144 bytes\n");
    }
    let mut table = [0i16; 18432];
    let mut out = [0u8; 86031];
    match rewrite(&mut table, &input[..n], &mut out) {
        Ok(bytes) => rt.write_all(&out[..bytes]),
        Err(Fault::NoBoard(variables)) => say(
            rt.stderr(),
            b"cnf: refused 2: the header counts ",
            variables,
            b" variables, and a board has 1 to 200\n",
        ),
        Err(Fault::Refused(why, before)) => say_refusal(rt.stderr(), why, before),
    }
}
