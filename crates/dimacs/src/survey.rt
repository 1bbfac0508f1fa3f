// The pass over a text before anything is written: whether it keeps the form, and what its clauses come to as rules.

ghost use Rattle.std.specs.Prelude.{◌≡◌, ◌+◌, ◌≤◌, length};
ghost use Rattle.literals.specs.Row.{most_rules};
ghost use Rattle.dimacs.specs.Form.{counted};
ghost use Rattle.dimacs.specs.Gathering.{clauses_from};
ghost use Rattle.dimacs.specs.Reading.{surveyed};
ghost use Rattle.dimacs.specs.Surveying.{broken_form, Judges, Surveys};

use crate::gathering::{Kept, gather};
use crate::words::next_word;
use board::Outcome;
use literals::MOST_RULES;
use literals::refusal::Refusal;

// What the clauses come to, how many come before the first at fault, and how many rows they have, 0 where they are refused: `Reading` takes over all
// three, where they are refused too (`ReadStops` in `promises`).
#[derive(Clone, Copy)]
pub struct Survey {
    pub outcome: Outcome,
    pub clauses: usize,
    pub added: usize,
}

// The text breaks the form.
fn broken() -> Survey
    ensures { result ≡ broken_form }
{
    Survey {
        outcome: Err(Refusal::BadText),
        clauses: 0,
        added: 0,
    }
}

// What a clause comes to, of which this is kept, where `rules` come before it.
fn judge(k: Kept, used: usize, rules: usize, lent: usize) -> Outcome
    requires { used ≤ lent }
    ensures { Judges k used rules lent result }
{
    if k.beyond {
        return Err(Refusal::BadLiteral);
    }
    if k.many {
        return Err(Refusal::TooManySymbols);
    }
    if k.count == 0 {
        return Err(Refusal::NoAssignment);
    }
    if rules == MOST_RULES {
        return Err(Refusal::TableFull);
    }
    if k.always {
        return Ok(());
    }
    if used == lent {
        return Err(Refusal::TableFull);
    }
    Ok(())
}

// What the clauses come to with one more; after the first at fault no other counts.
fn with_clause(found: Survey, k: Kept, used: usize, rules: usize, lent: usize) -> Survey
    requires { (used + found.added ≤ lent) × (lent ≤ 2048) × (rules + found.clauses ≤ most_rules) }
    ensures { Surveys found k used rules lent result }
{
    let outcome = found.outcome;
    match outcome {
        Err(_) => found,
        Ok(()) => match judge(k, used + found.added, rules + found.clauses, lent) {
            Err(why) => Survey {
                outcome: Err(why),
                clauses: found.clauses,
                added: 0,
            },
            Ok(()) => Survey {
                outcome: Ok(()),
                clauses: found.clauses + 1,
                added: found.added + (!k.always) as usize,
            },
        },
    }
}

// Goes through the clauses from a place on. The header counts `variables` and `clauses`.
pub fn survey_clauses(
    text: &[u8],
    at: usize,
    variables: usize,
    clauses: usize,
    symbols: usize,
    used: usize,
    rules: usize,
    lent: usize,
) -> Survey
    requires { (at ≤ length text.now) × (1 ≤ symbols) × (used ≤ lent) × (lent ≤ 2048) × (rules ≤ most_rules) }
    ensures { result ≡ surveyed symbols used rules lent (counted clauses (clauses_from variables at text.now)) }
{
    let mut row = [0usize; 8];
    let mut found = Survey {
        outcome: Ok(()),
        clauses: 0,
        added: 0,
    };
    let mut count = 0;
    let mut i = at;
    // A loop: where the next clause stands, only the end of this one tells.
    loop {
        let here = next_word(text, i);
        if here == text.len() {
            if count == clauses {
                return found;
            }
            return broken();
        }
        let c = gather(&mut row, text, here, variables, symbols);
        if !c.keeps {
            return broken();
        }
        found = with_clause(found, c.kept, used, rules, lent);
        count += 1;
        i = c.end;
    }
}
