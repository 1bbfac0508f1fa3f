// A rule added from text: its bytes are written into a buffer of the call's own, and added as they are.

ghost use Rattle.std.specs.Prelude.{◌≡◌, true, ◌*◌, ◌≤◌, min, length};
ghost use Rattle.formula.specs.Answers.{is_good};
ghost use Rattle.board.specs.Rules.{ruled, ruled_table};
ghost use Rattle.chains.specs.Form.{whole_text};
ghost use Rattle.text.specs.Reading.{bytes_in};
ghost use Rattle.text.specs.Adding.{ruled_text, ruled_text_table};

use crate::reading::{ENOUGH, SHORT};
use board::Board;
use board::rules::{Addition, NO_PLACE, add_rule, refused};
use board::testing::good;
use chains::emitting::emit;
use chains::reading::read_text;
use literals::refusal::Refusal;

// Adds the rule of a text, its bytes written into a buffer of this size: it holds them all, or as many as are enough to read, and the
// bytes that do not fit are not looked at.
fn add_in_room<const ROOM: usize>(board: Board, table: &mut [i16], text: &[u8]) -> Addition
    requires keeps { is_good (whole_text text.now) ≡ true }
    requires room { (min (2 * length text.now) 98304 ≤ ROOM) × (ROOM ≤ 98304) }
    ensures value { result ≡ ruled table.old board (bytes_in text.now) }
    ensures table_after { table.new ≡ ruled_table table.old board (bytes_in text.now) }
{
    let mut room = [0u8; ROOM];
    let size = emit(text, &mut room);
    let kept = size.min(ROOM);
    add_rule(board, table, &room[..kept])
}

// Adds the rule of a text that keeps the form.
fn add_formula(board: Board, table: &mut [i16], text: &[u8]) -> Addition
    requires { is_good (whole_text text.now) ≡ true }
    ensures value { result ≡ ruled table.old board (bytes_in text.now) }
    ensures table_after { table.new ≡ ruled_table table.old board (bytes_in text.now) }
{
    if text.len() <= SHORT {
        add_in_room::<256>(board, table, text)
    } else {
        add_in_room::<ENOUGH>(board, table, text)
    }
}

// Adds a rule from text. The board is tested here only where the text breaks the form: adding the bytes tests it too.
pub fn add_text(board: Board, table: &mut [i16], text: &[u8]) -> Addition
    ensures value { result ≡ ruled_text table.old board text.now }
    ensures table_after { table.new ≡ ruled_text_table table.old board text.now }
{
    match read_text(text) {
        Ok(_) => add_formula(board, table, text),
        Err(at) => {
            if good(board, table) {
                return refused(board, at.why, at.place);
            }
            refused(board, Refusal::BadBoard, NO_PLACE)
        }
    }
}
