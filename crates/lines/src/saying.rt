// What a command says: the call that it makes, and its line.
// No heap: what is written goes into what is lent, and the place after it is told.

ghost use Rattle.std.specs.Prelude.{◌≡◌, ◌+◌, ◌≤◌, length};
ghost use Rattle.spelling.specs.Text.{Put};
ghost use Rattle.lines.specs.Commands.{accepted, ask_said, body_length, body_said, change_said, command_said, command_table, Did, place_text};
ghost use Rattle.lines.specs.Commands.{reason_text, refused, refused_at, rows_text, rule_said, said, said_table, why_said, word_of};

use crate::commands::{Command, body_length, formula_length, literal_in};
use board::asking::Standing;
use board::rules::Addition;
use board::{Board, Change, asking, changes};
use literals::refusal::Refusal;
use spelling::{put_literals, put_named, put_natural, put_word};

// What a command comes to: the board after it, how many bytes of the input it took, the place after its text, and whether the
// program stops. No Option: all of it holds where the program stops, too.
#[derive(Clone, Copy)]
pub struct Progress {
    pub board: Board,
    pub used: usize,
    pub written: usize,
    pub stops: bool,
}

// The furnace that the journal works.
const FURNACE: u8 = 1;

// The refusals up to this one stop the program: of a call, and of the bytes of a command or a formula.
const OF_CALL: u8 = 1;

const OF_BYTES: u8 = 5;

// Writes a command's word.
fn put_command(out: &mut [u8], at: usize, command: Command) -> usize
    requires { at + 5 ≤ length out.old }
    ensures { Put out.old out.new at (word_of command) result }
{
    match command {
        Command::Open => put_word(out, at, b" open"),
        Command::Rule => put_word(out, at, b" rule"),
        Command::Hold => put_word(out, at, b" hold"),
        Command::Drop => put_word(out, at, b" drop"),
        Command::Ask => put_word(out, at, b" ask"),
        Command::Why => put_word(out, at, b" why"),
        Command::Other => put_word(out, at, b" kind"),
    }
}

// Writes the rows in use before a rule and the rows that it added.
fn put_rows(out: &mut [u8], at: usize, before: usize, added: usize) -> usize
    requires { at + 128 ≤ length out.old }
    ensures put { Put out.old out.new at (rows_text before added) result }
    ensures upper_bound { result ≤ at + 128 }
{
    let mid = put_named(out, at, b" rows ", before);
    put_named(out, mid, b" ", added)
}

// Writes the rank of a literal, and the number and the literals of its supporting row.
fn put_reason(out: &mut [u8], at: usize, rank: u16, row: u16, literals: &[i16]) -> usize
    requires { (at + 128 ≤ length out.old) × (length literals.now ≤ 8) }
    ensures put { Put out.old out.new at (reason_text rank row literals.now) result }
    ensures upper_bound { result ≤ at + 128 }
{
    let a = put_named(out, at, b" rank ", rank as usize);
    let b = put_named(out, a, b" row ", row as usize);
    let c = put_word(out, b, b":");
    put_literals(out, c, literals)
}

// A good call that says one word.
fn accept(board: Board, used: usize, word: &[u8], out: &mut [u8], at: usize) -> Progress
    requires { (at + 128 ≤ length out.old) × (length word.now ≤ 128) }
    ensures did { Did (accepted board used word.now) result out.old out.new at }
    ensures written_bound { result.written ≤ at + 128 }
{
    let written = put_word(out, at, word);
    Progress {
        board,
        used,
        written,
        stops: false,
    }
}

// A refusal: the program stops if its number is at most `last`.
fn refuse(board: Board, used: usize, last: u8, why: Refusal, out: &mut [u8], at: usize) -> Progress
    requires { at + 128 ≤ length out.old }
    ensures did { Did (refused board used last why) result out.old out.new at }
    ensures written_bound { result.written ≤ at + 24 }
{
    let number = u8::from(why);
    let written = put_named(out, at, b" no ", number as usize);
    Progress {
        board,
        used,
        written,
        stops: number <= last,
    }
}

// Open, hold or withdraw.
fn say_change(change: Change, used: usize, out: &mut [u8], at: usize) -> Progress
    requires { at + 128 ≤ length out.old }
    ensures did { Did (change_said used change) result out.old out.new at }
    ensures written_bound { result.written ≤ at + 128 }
{
    let outcome = change.outcome;
    match outcome {
        Ok(()) => accept(change.board, used, b" ok", out, at),
        Err(why) => refuse(change.board, used, OF_CALL, why, out, at),
    }
}

// Ask.
fn say_standing(
    board: Board,
    standing: Result<Standing, Refusal>,
    out: &mut [u8],
    at: usize,
) -> Progress
    requires { at + 128 ≤ length out.old }
    ensures did { Did (ask_said board standing) result out.old out.new at }
    ensures written_bound { result.written ≤ at + 128 }
{
    match standing {
        Ok(Standing::Conflict) => accept(board, 3, b" conflict", out, at),
        Ok(Standing::Stands) => accept(board, 3, b" stands", out, at),
        Ok(Standing::RuledOut) => accept(board, 3, b" out", out, at),
        Ok(Standing::Open) => accept(board, 3, b" open", out, at),
        Err(why) => refuse(board, 3, OF_CALL, why, out, at),
    }
}

// Explain.
fn say_why(board: Board, table: &[i16], l: i16, out: &mut [u8], at: usize) -> Progress
    requires { at + 128 ≤ length out.old }
    ensures did { Did (why_said board table.now l) result out.old out.new at }
    ensures written_bound { result.written ≤ at + 128 }
{
    let reason = asking::explain_numbers(board, table, FURNACE, l);
    let outcome = reason.outcome;
    match outcome {
        Err(why) => refuse(board, 3, OF_CALL, why, out, at),
        Ok(()) => {
            let literals = asking::explain(board, table, FURNACE, l);
            let written = put_reason(out, at, reason.rank, reason.row, literals);
            Progress {
                board,
                used: 3,
                written,
                stops: false,
            }
        }
    }
}

// Writes the place where a formula breaks, for the refusals that have one.
fn put_place(out: &mut [u8], at: usize, why: Refusal, place: usize) -> usize
    requires { at + 24 ≤ length out.old }
    ensures put { Put out.old out.new at (place_text why place) result }
    ensures upper_bound { result ≤ at + 24 }
{
    let number = u8::from(why);
    if number < 2 {
        return at;
    }
    if 6 < number {
        return at;
    }
    put_named(out, at, b" at ", place)
}

// A rule that is refused.
fn refuse_at(
    board: Board,
    used: usize,
    place: usize,
    why: Refusal,
    out: &mut [u8],
    at: usize,
) -> Progress
    requires { at + 128 ≤ length out.old }
    ensures did { Did (refused_at board used place why) result out.old out.new at }
    ensures written_bound { result.written ≤ at + 128 }
{
    let told = refuse(board, used, OF_BYTES, why, out, at);
    let written = put_place(out, told.written, why, place);
    Progress { written, ..told }
}

// A rule, added or refused, on a board that had `before` rows.
fn say_addition(
    before: usize,
    used: usize,
    addition: Addition,
    out: &mut [u8],
    at: usize,
) -> Progress
    requires { at + 128 ≤ length out.old }
    ensures did { Did (rule_said before used addition) result out.old out.new at }
    ensures written_bound { result.written ≤ at + 128 }
{
    let outcome = addition.outcome;
    let board = addition.board;
    match outcome {
        Err(why) => refuse_at(board, used, addition.place, why, out, at),
        Ok(()) => {
            let written = put_rows(out, at, before, addition.added);
            Progress {
                board,
                used,
                written,
                stops: false,
            }
        }
    }
}

// Rule.
fn say_rule(board: Board, table: &mut [i16], body: &[u8], out: &mut [u8], at: usize) -> Progress
    requires { at + 128 ≤ length out.old }
    ensures did { Did (body_said board table.old body.now Command.Rule) result out.old out.new at }
    ensures table_after { table.new ≡ command_table board table.old body.now Command.Rule }
    ensures written_bound { result.written ≤ at + 128 }
{
    let size = formula_length(body, board.symbols);
    let addition = board::rules::add_rule(board, table, &body[..size]);
    say_addition(board.rows, 1 + size, addition, out, at)
}

// A command whose own body is whole.
fn say_body(
    board: Board,
    table: &mut [i16],
    body: &[u8],
    command: Command,
    out: &mut [u8],
    at: usize,
) -> Progress
    requires { (at + 128 ≤ length out.old) × (body_length command ≤ length body.now) }
    ensures did { Did (body_said board table.old body.now command) result out.old out.new at }
    ensures table_after { table.new ≡ command_table board table.old body.now command }
    ensures written_bound { result.written ≤ at + 128 }
{
    match command {
        Command::Open => say_change(changes::open(body[0] as usize), 2, out, at),
        Command::Rule => say_rule(board, table, body, out, at),
        Command::Hold => say_change(
            changes::hold(board, table, FURNACE, literal_in(body)),
            3,
            out,
            at,
        ),
        Command::Drop => say_change(
            changes::withdraw(board, table, FURNACE, literal_in(body)),
            3,
            out,
            at,
        ),
        Command::Ask => say_standing(
            board,
            asking::ask(board, table, FURNACE, literal_in(body)),
            out,
            at,
        ),
        Command::Why => say_why(board, table, literal_in(body), out, at),
        Command::Other => refuse(board, 1, OF_BYTES, Refusal::UnknownKind, out, at),
    }
}

// A command: its own body is tested ahead of everything else.
fn say_command(
    board: Board,
    table: &mut [i16],
    body: &[u8],
    command: Command,
    out: &mut [u8],
    at: usize,
) -> Progress
    requires { at + 128 ≤ length out.old }
    ensures did { Did (command_said board table.old body.now command) result out.old out.new at }
    ensures table_after { table.new ≡ command_table board table.old body.now command }
    ensures written_bound { result.written ≤ at + 128 }
{
    if body.len() < body_length(command) {
        return refuse(board, 1 + body.len(), OF_BYTES, Refusal::CutShort, out, at);
    }
    say_body(board, table, body, command, out, at)
}

// Carries out the command at the front of `input` and writes its line to the front of `out`. `journal` lends room for any line, and
// calls only where a byte is left.
pub fn step(
    board: Board,
    table: &mut [i16],
    input: &[u8],
    ordinal: usize,
    out: &mut [u8],
) -> Progress
    requires { (1 ≤ length input.now) × (256 ≤ length out.old) }
    ensures did { Did (said ordinal board table.old input.now) result out.old out.new 0 }
    ensures table_after { table.new ≡ said_table board table.old input.now }
    ensures written_bound { result.written ≤ 256 }
{
    let command = Command::from(input[0]);
    let word = put_natural(out, 0, ordinal);
    let text = put_command(out, word, command);
    let done = say_command(board, table, &input[1..], command, out, text);
    let written = put_word(out, done.written, b"\n");
    Progress { written, ..done }
}
