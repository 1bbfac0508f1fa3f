// The desk: lines of plain text on standard input, an answer to each on standard output.
#![tactic(auto)]

mod sitting;

ghost use Rattle.std.specs.Prelude.{◌≡◌, ◌≤◌, ◌<◌, length, IfOk, IfSome};
ghost use Rattle.names.specs.Names.{table_length};
ghost use Rattle.saying.specs.Limits.{kept_length};
ghost use Rattle.orders.specs.States.{state_of};
ghost use Rattle.desk.specs.Sittings.{starting};
ghost use Rattle.desk.specs.Promises.{IsAfter};

use crate::sitting::{end_line, start, take_bytes};
use orders::Desk;
use saying::pieces::{say, say_number};
use std::io;
use std::io::Read;

// The program ends, as everything here does: after so many reads at the latest.
const MOST_READS: usize = 1000000000000;

// The last line: how far the input was read.
fn say_end(rt: &impl Print, lines: usize, whole: bool) -> io::Result<()> {
    if whole {
        say_number(rt, lines)?;
        return say(rt, b" lines read\n");
    }
    say(rt, b"stopped reading after ")?;
    say_number(rt, lines)?;
    say(rt, b" lines: the input cannot be read\n")
}

// Takes the input to its end: what is read at a time, and at last what no line feed ended. Answers the desk as it is then, or nothing where the input
// cannot be read.
fn serve<R: Read>(
    rt: &impl Print,
    from: &mut R,
    table: &mut [i16],
    names: &mut [u8],
    texts: &mut [u8],
    line: &mut [u8],
    input: &mut [u8],
) -> io::Result<Option<Desk>>
    requires { (length names.old ≡ table_length) × (length texts.old ≡ kept_length) × (length line.old ≡ 502) × (length input.old ≤ 4096) }
    ensures { IfOk result (λ end. IfSome end (λ desk. IfSome (R.remaining from.old) (λ text. 0 < length input.old
        → IsAfter (state_of starting.desk table.old names.old) text (state_of desk table.new names.new)))) }
{
    let mut sitting = start();
    for _ in 0..MOST_READS {
        let Ok(n) = from.read(input) else {
            say_end(rt, sitting.lines, false)?;
            return Ok(None);
        };
        if n == 0 {
            let ended = end_line(rt, sitting, table, names, texts, line)?;
            say_end(rt, ended.lines, true)?;
            return Ok(Some(ended.desk));
        }
        sitting = take_bytes(rt, sitting, table, names, texts, line, &input[..n])?;
    }
    say_end(rt, sitting.lines, false)?;
    Ok(None)
}

fn main(rt: HostRuntime) -> io::Result<()> {
    let mut table = [0i16; 18432];
    let mut names = [0u8; 4800];
    let mut texts = [0u8; 1024000];
    let mut line = [0u8; 502];
    let mut input = [0u8; 4096];
    serve(
        &rt,
        &mut rt.reader(),
        &mut table,
        &mut names,
        &mut texts,
        &mut line,
        &mut input,
    )?;
    Ok(())
}
