// The bytes of the input as lines, each taken and answered.

ghost use Rattle.std.specs.Prelude.{ℕ, ◌≡◌, ◌++◌, ◌≤◌, length, take, IfOk, OnErr};
ghost use Rattle.names.specs.Names.{table_length};
ghost use Rattle.saying.specs.Limits.{kept_length};
ghost use Rattle.desk.specs.Sittings.{after_bytes, after_end, after_line, after_part, kept, Leaves, plain_length, sat, starting};
ghost use Rattle.orders.specs.States.{state_of};
ghost use Rattle.stack.specs.Stacking.{empty_stack};

use answers::answering::answer;
use board::Board;
use input::line_length;
use orders::Desk;
use orders::taking::{MOST_BYTES, take};
use saying::pieces::say_line;
use stack::{Stack, Stacks};
use std::io;

// How far the desk is: its state beside the table and the names; whether lines are printed; how many were read; and how many bytes of the next one
// are in its buffer.
#[derive(Clone, Copy)]
pub struct Sitting {
    pub desk: Desk,
    pub echo: bool,
    pub lines: usize,
    pub filled: usize,
}

// A line and what is left out at its end: 500 bytes, a carriage return and one byte more, by which a longer line is known.
const ROOM: usize = 502;

// Lines are counted up to this.
const MOST_LINES: usize = 1000000000000000000;

fn no_literals() -> Stack
    ensures { result ≡ empty_stack }
{
    Stack {
        count: 0,
        literals: [0; 400],
    }
}

// No board is open, no literal on trial, and furnace 1 is worked.
pub fn start() -> Sitting
    ensures { result ≡ starting }
{
    let board = Board {
        symbols: 0,
        rows: 0,
        rules: 0,
        first: [false; 400],
        second: [false; 400],
    };
    let desk = Desk {
        board,
        stacks: Stacks {
            first: no_literals(),
            second: no_literals(),
        },
        furnace: 1,
    };
    Sitting {
        desk,
        echo: false,
        lines: 0,
        filled: 0,
    }
}

// How many bytes of a line count: a carriage return at its end does not.
fn plain_length(line: &[u8]) -> usize
    ensures { result ≡ plain_length line.now }
{
    let n = line.len();
    if n == 0 {
        return 0;
    }
    if line[n - 1] == b'\r' {
        return n - 1;
    }
    n
}

fn counted(lines: usize) -> usize {
    if lines < MOST_LINES { lines + 1 } else { lines }
}

// Takes and answers a line. Where its answer cannot be written, the table and the names are as the line leaves them.
fn take_line(
    rt: &impl Print,
    sitting: Sitting,
    table: &mut [i16],
    names: &mut [u8],
    texts: &mut [u8],
    line: &[u8],
) -> io::Result<Sitting>
    requires { (length names.old ≡ table_length) × (length texts.old ≡ kept_length) }
    ensures names_after { IfOk result (λ next. state_of next.desk table.new names.new
        ≡ after_line (state_of sitting.desk table.old names.old) line.now) }
    ensures filled_value { IfOk result (λ next. next.filled ≡ 0) }
    ensures failed { OnErr result (Leaves (after_line (state_of sitting.desk table.old names.old) line.now) table.new names.new) }
{
    let n = plain_length(line);
    let text = &line[..n];
    let before = sitting.desk;
    let taken = take(before, table, names, text);
    if sitting.echo && n <= MOST_BYTES {
        say_line(rt, text)?;
    }
    let after = taken.desk;
    let lines = counted(sitting.lines);
    let told = taken.told;
    let echo = answer(
        rt,
        before,
        after,
        told,
        table,
        names,
        texts,
        text,
        sitting.echo,
        lines,
    )?;
    Ok(Sitting {
        desk: after,
        echo,
        lines,
        filled: 0,
    })
}

// Puts bytes behind those of a line, as many as there is room for. Answers how many the line has then.
fn gather(line: &mut [u8], filled: usize, bytes: &[u8]) -> usize
    requires { (length line.old ≡ 502) × (filled ≤ 502) }
    ensures line_after { take result line.new ≡ kept (take filled line.old ++ bytes.now) }
    ensures upper_bound { result ≤ 502 }
{
    let n = bytes.len().min(ROOM - filled);
    let end = filled + n;
    line[filled..end].copy_from_slice(&bytes[..n]);
    end
}

// Takes and answers the line in the buffer.
fn take_filled(
    rt: &impl Print,
    sitting: Sitting,
    table: &mut [i16],
    names: &mut [u8],
    texts: &mut [u8],
    line: &[u8],
) -> io::Result<Sitting>
    requires { (length names.old ≡ table_length) × (length texts.old ≡ kept_length) × (sitting.filled ≤ length line.now) }
    ensures names_after { IfOk result (λ next. state_of next.desk table.new names.new
        ≡ after_line (state_of sitting.desk table.old names.old) (take sitting.filled line.now)) }
    ensures filled_value { IfOk result (λ next. next.filled ≡ 0) }
    ensures failed { OnErr result
        (Leaves (after_line (state_of sitting.desk table.old names.old) (take sitting.filled line.now)) table.new names.new) }
{
    let n = sitting.filled;
    take_line(rt, sitting, table, names, texts, &line[..n])
}

// Takes bytes without a line feed, and where one follows them the line that it ends.
fn take_part(
    rt: &impl Print,
    sitting: Sitting,
    table: &mut [i16],
    names: &mut [u8],
    texts: &mut [u8],
    line: &mut [u8],
    part: &[u8],
    ends: bool,
) -> io::Result<Sitting>
    requires { (length names.old ≡ table_length) × (length texts.old ≡ kept_length) × (length line.old ≡ 502) × (sitting.filled ≤ 502) }
    ensures line_after { IfOk result (λ next. sat next table.new names.new line.new
        ≡ after_part (sat sitting table.old names.old line.old) part.now ends) }
    ensures filled_bound { IfOk result (λ next. next.filled ≤ 502) }
    ensures failed { OnErr result
        (Leaves (after_part (sat sitting table.old names.old line.old) part.now ends).state table.new names.new) }
{
    let filled = gather(line, sitting.filled, part);
    let next = Sitting { filled, ..sitting };
    if ends {
        return take_filled(rt, next, table, names, texts, line);
    }
    Ok(next)
}

// Takes the next bytes of the input: each line that they end is taken and answered, and what is left over waits in the buffer. Where an answer cannot
// be written, the table and the names are as the lines up to that one leave them.
pub fn take_bytes(
    rt: &impl Print,
    sitting: Sitting,
    table: &mut [i16],
    names: &mut [u8],
    texts: &mut [u8],
    line: &mut [u8],
    bytes: &[u8],
) -> io::Result<Sitting>
    requires { (length names.old ≡ table_length) × (length texts.old ≡ kept_length) × (length line.old ≡ 502) × (sitting.filled ≤ 502)
        × (length bytes.now ≤ 4096) }
    ensures line_after { IfOk result (λ next. sat next table.new names.new line.new
        ≡ after_bytes (sat sitting table.old names.old line.old) bytes.now) }
    ensures filled_bound { IfOk result (λ next. next.filled ≤ 502) }
    ensures failed { OnErr result
        ((n : ℕ) × Leaves (after_bytes (sat sitting table.old names.old line.old) (take n bytes.now)).state table.new names.new) }
{
    let mut here = sitting;
    let mut at = 0;
    // A while: the next line begins where this one ends.
    while at < bytes.len() {
        let end = at + line_length(&bytes[at..]);
        here = take_part(
            rt,
            here,
            table,
            names,
            texts,
            line,
            &bytes[at..end],
            end < bytes.len(),
        )?;
        at = end + 1;
    }
    Ok(here)
}

// Takes what is left of the input where it has ended, if anything is.
pub fn end_line(
    rt: &impl Print,
    sitting: Sitting,
    table: &mut [i16],
    names: &mut [u8],
    texts: &mut [u8],
    line: &[u8],
) -> io::Result<Sitting>
    requires { (length names.old ≡ table_length) × (length texts.old ≡ kept_length) × (length line.now ≡ 502) × (sitting.filled ≤ 502) }
    ensures ended { IfOk result (λ last. state_of last.desk table.new names.new
        ≡ after_end (sat sitting table.old names.old line.now)) }
    ensures failed { OnErr result (Leaves (after_end (sat sitting table.old names.old line.now)) table.new names.new) }
{
    if sitting.filled == 0 {
        return Ok(sitting);
    }
    take_filled(rt, sitting, table, names, texts, line)
}
