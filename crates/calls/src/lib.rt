// The calls of `board`, each made and what it answers printed, after a semicolon. For the programs that try boards: each passes counts and lengths as
// plain numbers within the bounds that a function asks for. The contracts promise that a function is safe and ends; what is printed is held to the
// programs' stored output.
#![tactic(auto)]

ghost use Rattle.std.specs.Prelude.{◌≤◌, length};

use board::asking::{Reason, Standing};
use board::rules::Addition;
use board::{Board, Change, Outcome};
use literals::refusal::Refusal;
use report::comparing::{BYTE, WORD, changed, written};
use report::counting::{how_many, sum};
use report::printing;
use report::printing::{counted, number, text};
use std::io;

// The name of a call and the literal that it is given.
fn named(rt: &impl Print, name: &[u8], l: i16) -> io::Result<()> {
    text(rt, name)?;
    printing::literal(rt, l)
}

// The furnace that a call names, after all else that it is given.
fn for_furnace(rt: &impl Print, furnace: u8) -> io::Result<()> {
    counted(rt, b" for", furnace as usize)
}

// What adding a rule came to: the rows in use before it, those that it added, and at how many places the table changed.
pub fn added(
    rt: &impl Print,
    before: Board,
    told: Addition,
    places: usize,
    table: &[i16],
) -> io::Result<()> {
    let outcome = told.outcome;
    let next = told.board;
    match outcome {
        Err(why) => { printing::rule_refused(rt, why, told.place, places == 0 && before == next) }
        Ok(()) => {
            printing::appended(rt, table, before.rows, told.added)?;
            counted(rt, b", changed", places)?;
            printing::board(rt, next)
        }
    }
}

// Adds a rule to a table of which the first `lent` numbers are lent; `given` is a copy of it.
pub fn rule_in(
    rt: &impl Print,
    before: Board,
    given: &[i16],
    table: &mut [i16],
    lent: usize,
    bytes: &[u8],
) -> io::Result<Board>
    requires { lent ≤ length table.old }
{
    let told = board::rules::add_rule(before, &mut table[..lent], bytes);
    text(rt, b"; rule")?;
    printing::formula(rt, bytes)?;
    added(rt, before, told, changed(given, table), table)?;
    Ok(told.board)
}

// The same with a table that is not used again.
pub fn rule(
    rt: &impl Print,
    before: Board,
    given: [i16; 45],
    lent: usize,
    bytes: &[u8],
) -> io::Result<()>
    requires { lent ≤ 45 }
{
    let mut table = given;
    rule_in(rt, before, &given, &mut table, lent, bytes)?;
    Ok(())
}

fn change(rt: &impl Print, before: Board, told: Change) -> io::Result<()> {
    let outcome = told.outcome;
    let next = told.board;
    match outcome {
        Err(why) => printing::refused_with(rt, why, before == next),
        Ok(()) => printing::board(rt, next),
    }
}

// What holding or withdrawing told, with the line's word in front.
fn premise(
    rt: &impl Print,
    before: Board,
    told: Change,
    word: &[u8],
    furnace: u8,
    l: i16,
) -> io::Result<Board> {
    named(rt, word, l)?;
    for_furnace(rt, furnace)?;
    change(rt, before, told)?;
    Ok(told.board)
}

pub fn hold(
    rt: &impl Print,
    before: Board,
    table: &[i16],
    furnace: u8,
    l: i16,
) -> io::Result<Board> {
    let told = board::changes::hold(before, table, furnace, l);
    premise(rt, before, told, b"; hold", furnace, l)
}

pub fn withdraw(
    rt: &impl Print,
    before: Board,
    table: &[i16],
    furnace: u8,
    l: i16,
) -> io::Result<Board> {
    let told = board::changes::withdraw(before, table, furnace, l);
    premise(rt, before, told, b"; drop", furnace, l)
}

// What settle wrote at the front of each table, in full.
fn tables(rt: &impl Print, labels: &[u8], ranks: &[u16], supports: &[u16]) -> io::Result<()> {
    text(rt, b" labels")?;
    printing::bytes(rt, labels, written(labels, BYTE))?;
    text(rt, b" ranks")?;
    printing::words(rt, ranks, written(ranks, WORD))?;
    text(rt, b" supports")?;
    printing::words(rt, supports, written(supports, WORD))
}

// How many literals have each rank, up to the last rank that any has.
fn by_rank(rt: &impl Print, ranks: &[u16]) -> io::Result<()> {
    text(rt, b" by rank")?;
    for rank in 0..400 {
        let n = how_many(ranks, rank);
        if n == 0 {
            break;
        }
        number(rt, n)?;
    }
    Ok(())
}

// The same in short: how many symbols have each label, the sums of the ranks and of the supports, how many literals have each rank.
fn summary(rt: &impl Print, labels: &[u8], ranks: &[u16], supports: &[u16]) -> io::Result<()> {
    counted(rt, b" labels", how_many(labels, 0))?;
    number(rt, how_many(labels, 1))?;
    number(rt, how_many(labels, 2))?;
    number(rt, how_many(labels, 3))?;
    counted(rt, b" sums", sum(ranks, 400))?;
    number(rt, sum(supports, 400))?;
    by_rank(rt, ranks)
}

fn settled(
    rt: &impl Print,
    told: Outcome,
    labels: &[u8],
    ranks: &[u16],
    supports: &[u16],
) -> io::Result<()> {
    let n = written(labels, BYTE);
    match told {
        Ok(()) => {
            if n < 200 {
                tables(rt, labels, ranks, supports)
            } else {
                summary(rt, labels, ranks, supports)
            }
        }
        Err(why) => {
            let m = written(ranks, WORD);
            printing::refused_with(rt, why, n == 0 && m == 0 && written(supports, WORD) == 0)
        }
    }
}

// Settles with the first so many places of each table lent.
fn settle_in(
    before: Board,
    table: &[i16],
    furnace: u8,
    labels: &mut [u8],
    a: usize,
    ranks: &mut [u16],
    b: usize,
    supports: &mut [u16],
    c: usize,
) -> Outcome
    requires { (a ≤ length labels.old) × (b ≤ length ranks.old) × (c ≤ length supports.old) }
{
    board::settling::settle(
        before,
        table,
        furnace,
        &mut labels[..a],
        &mut ranks[..b],
        &mut supports[..c],
    )
}

// Settles with so many places of each table lent.
pub fn settle(
    rt: &impl Print,
    before: Board,
    table: &[i16],
    furnace: u8,
    a: usize,
    b: usize,
    c: usize,
) -> io::Result<()>
    requires { (a ≤ 410) × (b ≤ 410) × (c ≤ 410) }
{
    let mut labels = [BYTE; 410];
    let mut ranks = [WORD; 410];
    let mut supports = [WORD; 410];
    let told = settle_in(
        before,
        table,
        furnace,
        &mut labels,
        a,
        &mut ranks,
        b,
        &mut supports,
        c,
    );
    counted(rt, b"; settle", a)?;
    number(rt, b)?;
    number(rt, c)?;
    for_furnace(rt, furnace)?;
    settled(rt, told, &labels, &ranks, &supports)
}

fn standing(rt: &impl Print, s: Result<Standing, Refusal>) -> io::Result<()> {
    match s {
        Ok(Standing::Conflict) => text(rt, b" conflict"),
        Ok(Standing::Stands) => text(rt, b" stands"),
        Ok(Standing::RuledOut) => text(rt, b" out"),
        Ok(Standing::Open) => text(rt, b" open"),
        Err(why) => printing::refused(rt, why),
    }
}

// Both of the calls that ask.
pub fn ask(rt: &impl Print, before: Board, table: &[i16], furnace: u8, l: i16) -> io::Result<()> {
    named(rt, b"; ask", l)?;
    for_furnace(rt, furnace)?;
    standing(rt, board::asking::ask(before, table, furnace, l))?;
    text(rt, b", whole")?;
    standing(rt, board::asking::ask_whole(before, table, furnace, l))
}

fn reason(rt: &impl Print, r: Reason) -> io::Result<()> {
    let outcome = r.outcome;
    printing::outcome(rt, outcome)?;
    counted(rt, b" rank", r.rank as usize)?;
    counted(rt, b" row", r.row as usize)?;
    counted(rt, b" rule", r.rule as usize)
}

// Both of the calls that explain.
pub fn explain(
    rt: &impl Print,
    before: Board,
    table: &[i16],
    furnace: u8,
    l: i16,
) -> io::Result<()> {
    named(rt, b"; why", l)?;
    for_furnace(rt, furnace)?;
    reason(
        rt,
        board::asking::explain_numbers(before, table, furnace, l),
    )?;
    printing::numbers(rt, board::asking::explain(before, table, furnace, l))
}

// What ground or blame wrote at the front of the table: the marks, or of many how many are set.
fn marked(rt: &impl Print, told: Outcome, marks: &[u8]) -> io::Result<()> {
    let n = written(marks, BYTE);
    match told {
        Ok(()) => {
            if n < 400 {
                printing::bytes(rt, marks, n)
            } else {
                counted(rt, b" marked", how_many(marks, 1))
            }
        }
        Err(why) => printing::refused_with(rt, why, n == 0),
    }
}

// Grounds a literal with the first so many marks lent.
fn ground_in(
    rt: &impl Print,
    before: Board,
    table: &[i16],
    furnace: u8,
    l: i16,
    marks: &mut [u8],
    lent: usize,
) -> io::Result<()>
    requires { lent ≤ length marks.old }
{
    let told = board::grounds::ground(before, table, furnace, l, &mut marks[..lent]);
    marked(rt, told, marks)
}

// Grounds a literal with so many marks lent.
pub fn ground(
    rt: &impl Print,
    before: Board,
    table: &[i16],
    furnace: u8,
    l: i16,
    lent: usize,
) -> io::Result<()>
    requires { lent ≤ 410 }
{
    let mut marks = [BYTE; 410];
    named(rt, b"; ground", l)?;
    counted(rt, b" in", lent)?;
    for_furnace(rt, furnace)?;
    ground_in(rt, before, table, furnace, l, &mut marks, lent)
}

// Blames with the first so many marks lent.
fn blame_in(
    rt: &impl Print,
    before: Board,
    table: &[i16],
    furnace: u8,
    marks: &mut [u8],
    lent: usize,
) -> io::Result<()>
    requires { lent ≤ length marks.old }
{
    let told = board::grounds::blame(before, table, furnace, &mut marks[..lent]);
    marked(rt, told, marks)
}

// Blames with so many marks lent.
pub fn blame(
    rt: &impl Print,
    before: Board,
    table: &[i16],
    furnace: u8,
    lent: usize,
) -> io::Result<()>
    requires { lent ≤ 410 }
{
    let mut marks = [BYTE; 410];
    counted(rt, b"; blame in", lent)?;
    for_furnace(rt, furnace)?;
    blame_in(rt, before, table, furnace, &mut marks, lent)
}
