// Text written of a formula's bytes.

ghost use Rattle.std.specs.Prelude.{◌≡◌, true, ◌≤◌, length};
ghost use Rattle.formula.specs.Parse.{whole_of};
ghost use Rattle.formula.specs.Answers.{is_good};
ghost use Rattle.board.specs.Faults.{first_fault};
ghost use Rattle.board.specs.Settling.{over};
ghost use Rattle.text.specs.Writing.{text_in, room_faults, spelled_answer, write_text_answer, write_text_bytes};

use crate::{Spelling, refused};
use board::Board;
use board::rules::NO_PLACE;
use board::testing::good;
use chains::wording::spell;
use formula::reading::read_whole;
use literals::refusal::Refusal;

// Writes the text of a formula that was read, and nothing where it does not fit. An empty buffer is written first, to measure it.
fn write_formula(bytes: &[u8], symbols: usize, out: &mut [u8]) -> Spelling
    requires { (symbols ≤ 200) × (is_good (whole_of symbols bytes.now) ≡ true) }
    ensures value { result
        ≡ spelled_answer (first_fault (room_faults symbols bytes.now (length out.old))) symbols bytes.now }
    ensures out_after { out.new
        ≡ over (first_fault (room_faults symbols bytes.now (length out.old))) (text_in symbols bytes.now)
        out.old }
{
    let mut none = [0u8; 1];
    let size = spell(bytes, symbols, &mut none[..0]);
    if out.len() < size {
        return refused(Refusal::TableTooShort, NO_PLACE);
    }
    Spelling {
        outcome: Ok(()),
        place: NO_PLACE,
        bytes: spell(bytes, symbols, out),
    }
}

// Writes a formula's bytes as text.
pub fn write(board: Board, table: &[i16], bytes: &[u8], out: &mut [u8]) -> Spelling
    ensures value { result ≡ write_text_answer table.now board bytes.now out.old }
    ensures out_after { out.new ≡ write_text_bytes table.now board bytes.now out.old }
{
    if !good(board, table) {
        return refused(Refusal::BadBoard, NO_PLACE);
    }
    match read_whole(bytes, board.symbols) {
        Err(at) => refused(at.why, at.place),
        Ok(_) => write_formula(bytes, board.symbols, out),
    }
}
