// A text read to the bytes of its formula.

ghost use Rattle.std.specs.Prelude.{◌≡◌, true, ◌*◌, ◌≤◌, min, length};
ghost use Rattle.formula.specs.Answers.{is_good, read_of};
ghost use Rattle.chains.specs.Form.{whole_text};
ghost use Rattle.text.specs.Reading.{read_in, read_text_answer, read_text_bytes};

use crate::{Spelling, refused};
use board::Board;
use board::rules::NO_PLACE;
use board::testing::good;
use chains::emitting::emit;
use chains::reading::read_text;
use formula::reading::{Break, read_whole};
use literals::refusal::Refusal;

// A text of so many bytes has no more than twice as many formula bytes, and they stand in a short buffer.
pub const SHORT: usize = 128;

// The first bytes of a formula that are enough to read it: what is not too deep has fewer.
pub const ENOUGH: usize = 98304;

// What the byte reader answers of a text's bytes, written into a buffer of this size: it holds them all, or as many as are enough to
// read, and the bytes that do not fit are not looked at.
fn judge_in_room<const ROOM: usize>(text: &[u8], symbols: usize) -> Result<usize, Break>
    requires keeps { is_good (whole_text text.now) ≡ true }
    requires room { (min (2 * length text.now) 98304 ≤ ROOM) × (ROOM ≤ 98304) }
    ensures { result ≡ read_of (read_in symbols text.now) }
{
    let mut room = [0u8; ROOM];
    let size = emit(text, &mut room);
    let kept = size.min(ROOM);
    read_whole(&room[..kept], symbols)
}

fn judge(text: &[u8], symbols: usize) -> Result<usize, Break>
    requires { is_good (whole_text text.now) ≡ true }
    ensures { result ≡ read_of (read_in symbols text.now) }
{
    if text.len() <= SHORT {
        judge_in_room::<256>(text, symbols)
    } else {
        judge_in_room::<ENOUGH>(text, symbols)
    }
}

// Writes the bytes of the formula that a text says, and nothing where they do not fit.
pub fn read(board: Board, table: &[i16], text: &[u8], out: &mut [u8]) -> Spelling
    ensures value { result ≡ read_text_answer table.now board text.now out.old }
    ensures out_after { out.new ≡ read_text_bytes table.now board text.now out.old }
{
    if !good(board, table) {
        return refused(Refusal::BadBoard, NO_PLACE);
    }
    match read_text(text) {
        Err(at) => refused(at.why, at.place),
        Ok(_) => match judge(text, board.symbols) {
            Err(at) => refused(at.why, at.place),
            Ok(size) => {
                if out.len() < size {
                    return refused(Refusal::TableTooShort, NO_PLACE);
                }
                Spelling {
                    outcome: Ok(()),
                    place: NO_PLACE,
                    bytes: emit(text, out),
                }
            }
        },
    }
}
