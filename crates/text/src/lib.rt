// Formulae in plain text, with a board: a text read to bytes, a rule added from text, and text written of bytes. Each call is total, tests its own
// input, refuses in the documents' order and then leaves everything as it was.
#![tactic(auto)]

pub mod adding;
pub mod reading;
pub mod writing;

ghost use Rattle.std.specs.Prelude.{◌≡◌, Err};

use board::Outcome;
use literals::refusal::Refusal;

// What reading a text to bytes and writing text answer: for refusal 15 the place in the text, for 2 to 6 the place in the formula's bytes,
// `board::rules::NO_PLACE` otherwise; and how many bytes were written, 0 where it was refused. `RefusedHandsBack` and `TextPlaced` in `promises` speak
// of these numbers where it is refused, so they stand beside the outcome.
#[derive(Clone, Copy)]
pub struct Spelling {
    pub outcome: Outcome,
    pub place: usize,
    pub bytes: usize,
}

fn refused(why: Refusal, place: usize) -> Spelling
    ensures { result ≡ record { outcome = Err why; place = place; bytes = 0 } }
{
    Spelling {
        outcome: Err(why),
        place,
        bytes: 0,
    }
}
