// What entering answers once all is added.

ghost use Rattle.std.specs.Prelude.{◌≡◌, ◌+◌, ◌≤◌, Ok};
ghost use Rattle.literals.specs.Row.{most_rules};
ghost use Rattle.board.specs.Rules.{no_place, with_rules};

use board::Board;
use board::rules::{Addition, NO_PLACE};

pub fn done(board: Board, added: usize, rules: usize) -> Addition
    requires { (board.rows + added ≤ 2048) × (board.rules + rules ≤ most_rules) }
    ensures { result ≡ record { outcome = Ok tt; place = no_place; added = added; board = with_rules board added rules } }
{
    let mut next = board;
    next.rows = board.rows + added;
    next.rules = board.rules + rules;
    Addition {
        outcome: Ok(()),
        place: NO_PLACE,
        added,
        board: next,
    }
}
