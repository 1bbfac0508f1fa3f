// The journal: commands on standard input, a line for each on standard output.
#![tactic(auto)]

ghost use Rattle.std.specs.Prelude.{◌+◌, ◌≤◌, ◌<◌, ◌≡◌, true, length, OnOk};
ghost use Rattle.std.specs.Io.KnownBytes.{Appends};
ghost use Rattle.journal.specs.Promises.{all_lines};
ghost use Rattle.journal.specs.Told.{left, more, Runs, starting, told};

use board::Board;
use input::read_full;
use std::io;
use std::io::Write;

// The most bytes of input that are taken.
const MOST_INPUT: usize = 32768;

// No line has more bytes.
const LINE: usize = 256;

// How far the journal is: the board, the place of the next command and its ordinal, whether the program stops, and how many bytes
// of the buffer are filled. No Option: all of it holds where the program stops, too.
#[derive(Clone, Copy)]
struct Run {
    board: Board,
    next: usize,
    ordinal: usize,
    stops: bool,
    filled: usize,
}

// The board of no symbols, before the first command.
fn start() -> Run
    ensures { result ≡ starting }
{
    let board = Board {
        symbols: 0,
        rows: 0,
        rules: 0,
        first: [false; 400],
        second: [false; 400],
    };
    Run {
        board,
        next: 0,
        ordinal: 1,
        stops: false,
        filled: 0,
    }
}

// Whether another command is to be carried out.
fn goes_on(run: Run, input: &[u8]) -> bool
    ensures { result ≡ more run input.now }
{
    !run.stops && run.next < input.len()
}

// Carries out one command, and puts its line into the buffer.
fn advance(run: Run, table: &mut [i16], input: &[u8], out: &mut [u8]) -> Run
    requires { (more run input.now ≡ true) × Runs run input.now × (run.filled + 256 ≤ length out.old) }
    ensures out_after { told result table.new input.now out.new
        ≡ told run table.old input.now out.old }
    ensures next_lt_next { (run.next < result.next) × Runs result input.now × (result.filled ≤ length out.new) }
{
    let from = run.next;
    let at = run.filled;
    let done = lines::saying::step(
        run.board,
        table,
        &input[from..],
        run.ordinal,
        &mut out[at..],
    );
    let board = done.board;
    Run {
        board,
        next: from + done.used,
        ordinal: run.ordinal + 1,
        stops: done.stops,
        filled: at + done.written,
    }
}

// Fills the buffer anew with lines, one at least, until it may not hold another.
fn fill(run: Run, table: &mut [i16], input: &[u8], out: &mut [u8]) -> Run
    requires { (more run input.now ≡ true) × Runs run input.now × (256 ≤ length out.old) }
    ensures out_after { told result table.new input.now out.new ≡ left run table.old input.now }
    ensures next_lt_next { (run.next < result.next) × Runs result input.now × (result.filled ≤ length out.new) }
{
    let mut here = advance(Run { filled: 0, ..run }, table, input, out);
    // A while: a command tells where the next one stands, and whether one follows.
    while goes_on(here, input) && here.filled + LINE <= out.len() {
        here = advance(here, table, input, out);
    }
    here
}

// Carries out all commands, and writes their lines a buffer at a time: where it could write them, every line of the journal.
fn journal<W: Write>(to: &mut W, table: &mut [i16], input: &[u8]) -> io::Result<()>
    ensures { OnOk result (Appends (W.contents to.old) (W.contents to.new) (all_lines table.old input.now)) }
{
    let mut out = [0u8; 4096];
    let mut run = start();
    // A while: a buffer is filled with as many commands as their lines leave room for.
    while goes_on(run, input) {
        run = fill(run, table, input, &mut out);
        to.write_all(&out[..run.filled])?;
    }
    Ok(())
}

// Reads the input, and carries out its commands.
fn main(rt: HostRuntime) -> io::Result<()> {
    let mut input = [0u8; 32769];
    let n = read_full(&mut rt.reader(), &mut input)?;
    if MOST_INPUT < n {
        return rt.write_all(b"input too long\n");
    }
    let mut table = [0i16; 18432];
    journal(&mut io::writer(&rt), &mut table, &input[..n])
}
