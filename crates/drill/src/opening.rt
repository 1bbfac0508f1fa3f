// Opening a board.

use board::Board;
use report::printing;
use std::io;

// What an open answers, and the board that it hands back.
pub fn open(rt: &impl Print, symbols: usize) -> io::Result<Board> {
    let told = board::changes::open(symbols);
    let outcome = told.outcome;
    let next = told.board;
    printing::counted(rt, b"open", symbols)?;
    printing::outcome(rt, outcome)?;
    printing::board(rt, next)?;
    Ok(next)
}

fn show(rt: &impl Print, symbols: usize) -> io::Result<()> {
    open(rt, symbols)?;
    printing::end(rt)
}

pub fn run(rt: &impl Print) -> io::Result<()> {
    show(rt, 200)?;
    show(rt, 1)?;
    show(rt, 0)?;
    show(rt, 201)?;
    show(rt, 18446744073709551615)
}
