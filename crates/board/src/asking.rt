// Ask and explain: one literal at a time, nothing written.

ghost use Rattle.std.specs.Prelude.{◌≡◌, cond, ◌*◌, ◌≤◌, nat_abs, length, Err};
ghost use Rattle.meaning.specs.Tests.{none};
ghost use Rattle.meaning.specs.Literals.{has};
ghost use Rattle.literals.specs.Literal.{place_of};
ghost use Rattle.findings.specs.Ranks.{below};
ghost use Rattle.board.specs.Asking.{standing_if, standing, asked, standing_whole, asked_whole, explain_numbers, explain_part, IsPart};

use crate::furnaces::premises;
use crate::testing::place_on;
use crate::{Board, Outcome};
use findings::NONE;
use literals::WIDTH;
use literals::refusal::Refusal;

// How a literal stands.
#[derive(Clone, Copy)]
pub enum Standing {
    Conflict,
    Stands,
    RuledOut,
    Open,
}

// Why a literal stands: its rank and its supporting row, both 65535 where explain is refused, and the number of the rule that the row is from, 0
// where it is refused: `RefusedHandsBack` in `promises` says it of these numbers, so they stand beside the outcome.
#[derive(Clone, Copy)]
pub struct Reason {
    pub outcome: Outcome,
    pub rank: u16,
    pub row: u16,
    pub rule: u16,
}

// Whether a literal that was tested has a rank.
fn is_ranked(ranks: &[u16], l: i16) -> bool
    requires { (1 ≤ nat_abs l) × (2 * nat_abs l ≤ length ranks.now) × (length ranks.now ≤ 400) }
    ensures { result ≡ has (below none ranks.now) (place_of l) }
{
    ranks[literals::place(l)] < NONE
}

// How a literal stands: by whether there is a conflict that counts for it, whether it is derived, and whether its opposite is.
fn standing_if(clash: bool, derived: bool, opposed: bool) -> Standing
    ensures { result ≡ standing_if clash derived opposed }
{
    if clash {
        return Standing::Conflict;
    }
    if derived {
        return Standing::Stands;
    }
    if opposed {
        return Standing::RuledOut;
    }
    Standing::Open
}

// How a literal that was tested stands by the ranks: by its own symbol, or of the whole board.
fn standing_by(ranks: &[u16], l: i16, whole: bool) -> Standing
    requires { (1 ≤ nat_abs l) × (2 * nat_abs l ≤ length ranks.now) × (length ranks.now ≤ 400) }
    ensures { result ≡ cond whole (standing_whole (below none ranks.now) (place_of l))
        (standing (below none ranks.now) (place_of l)) }
{
    let derived = is_ranked(ranks, l);
    let opposed = is_ranked(ranks, literals::opposite(l));
    let clash = if whole {
        findings::labels::first_clash(ranks).is_some()
    } else {
        derived & opposed
    };
    standing_if(clash, derived, opposed)
}

// The code behind both calls that ask: they differ in what is a conflict for the literal.
fn answer(
    board: Board,
    table: &[i16],
    furnace: u8,
    l: i16,
    whole: bool,
) -> Result<Standing, Refusal>
    ensures { result ≡ cond whole (asked_whole table.now board furnace l) (asked table.now board furnace l) }
{
    place_on(board, table, furnace, l)?;
    let places = 2 * board.symbols;
    let held = premises(&board.first, &board.second, furnace);
    let mut ranks = [NONE; 400];
    let mut none = [NONE; 1];
    rounds::propagation::propagate(
        table,
        board.rows,
        held,
        &mut ranks[..places],
        0,
        &mut none[..0],
    );
    Ok(standing_by(&ranks[..places], l, whole))
}

// Answers for one literal, by a furnace's premises: conflict only where the literal and its opposite are both derived.
pub fn ask(board: Board, table: &[i16], furnace: u8, l: i16) -> Result<Standing, Refusal>
    ensures { result ≡ asked table.now board furnace l }
{
    answer(board, table, furnace, l, false)
}

// The answer of the whole board: conflict for every literal where the furnace is in conflict anywhere.
pub fn ask_whole(board: Board, table: &[i16], furnace: u8, l: i16) -> Result<Standing, Refusal>
    ensures { result ≡ asked_whole table.now board furnace l }
{
    answer(board, table, furnace, l, true)
}

fn unexplained(why: Refusal) -> Reason
    ensures { result ≡ record { outcome = Err why; rank = none; row = none; rule = 0 } }
{
    Reason {
        outcome: Err(why),
        rank: NONE,
        row: NONE,
        rule: 0,
    }
}

// The rank of a literal for a furnace, and the numbers of its supporting row and of the rule that the row is from.
pub fn explain_numbers(board: Board, table: &[i16], furnace: u8, l: i16) -> Reason
    ensures { result ≡ explain_numbers table.now board furnace l }
{
    match place_on(board, table, furnace, l) {
        Err(why) => unexplained(why),
        Ok(p) => {
            let places = 2 * board.symbols;
            let held = premises(&board.first, &board.second, furnace);
            let mut ranks = [NONE; 400];
            let mut row = [NONE; 1];
            rounds::propagation::propagate(
                table,
                board.rows,
                held,
                &mut ranks[..places],
                p,
                &mut row[..1],
            );
            let rank = ranks[p];
            if rank == 0 {
                return unexplained(Refusal::NothingToShow);
            }
            if rank == NONE {
                return unexplained(Refusal::NothingToShow);
            }
            Reason {
                outcome: Ok(()),
                rank,
                row: row[0],
                rule: literals::rule_at(table, row[0] as usize) as u16,
            }
        }
    }
}

// The supporting row's literals, where they lie in the caller's table.
pub fn explain(board: Board, table: &[i16], furnace: u8, l: i16) -> &[i16]
    ensures { IsPart table.entry result (explain_part table.now board furnace l) }
{
    let reason = explain_numbers(board, table, furnace, l);
    let outcome = reason.outcome;
    match outcome {
        Err(_) => &table[0..0],
        Ok(()) => {
            let start = WIDTH * (reason.row as usize);
            let stop = start + literals::literal_count(table, start);
            &table[start..stop]
        }
    }
}
