// The calls of `dimacs`: each refusal of a reading, the order of the tests, texts that are taken; writing, and reading what was written.

ghost use Rattle.std.specs.Prelude.{◌≤◌};

use crate::telling;
use board::Board;
use report::boards::{GUARD, blank};
use report::comparing::BYTE;
use report::{boards, pieces, printing};
use std::io;

fn show(rt: &impl Print, b: Board, lent: usize, text: &[u8]) -> io::Result<()>
    requires { lent ≤ 45 }
{
    printing::on(rt, b, lent)?;
    telling::read(rt, b, boards::rows(), lent, text)?;
    printing::end(rt)
}

// Reads each text of a list, each by itself. A byte `/`, which no text has, stands between two.
fn each(rt: &impl Print, b: Board, lent: usize, list: &[u8]) -> io::Result<()>
    requires { lent ≤ 45 }
{
    pieces::each(list, |text| show(rt, b, lent, text))
}

// Onto a board of 4 symbols and two rows, with three free rows, and with none; and onto one of 200 symbols, with three, and with none.
fn read(rt: &impl Print, list: &[u8]) -> io::Result<()> {
    each(rt, boards::both(), 45, list)
}

fn read_full(rt: &impl Print, list: &[u8]) -> io::Result<()> {
    each(rt, boards::both(), 18, list)
}

fn read_wide(rt: &impl Print, list: &[u8]) -> io::Result<()> {
    each(rt, blank(200, 2, 2), 45, list)
}

fn read_wide_full(rt: &impl Print, list: &[u8]) -> io::Result<()> {
    each(rt, blank(200, 2, 2), 18, list)
}

// 1: S of 0 and 201, fewer rows lent than are in use, a row whose literals are not sound, a row of rule 2 where one rule is counted, more rules
// counted than there are numbers, a premise of symbol 5 of 4, held by furnace 1, and by furnace 2. And 1 is ahead of 15, 2 and 8.
fn spoilt(rt: &impl Print) -> io::Result<()> {
    show(rt, blank(0, 2, 2), 45, b"p cnf 4 1\n1 0\n")?;
    show(rt, blank(201, 2, 2), 45, b"p cnf 4 1\n1 0\n")?;
    show(rt, boards::none(), 17, b"p cnf 4 1\n1 0\n")?;
    show(rt, blank(4, 3, 3), 45, b"p cnf 4 1\n1 0\n")?;
    show(rt, blank(4, 2, 1), 45, b"p cnf 4 1\n1 0\n")?;
    show(rt, blank(4, 2, 32768), 45, b"p cnf 4 1\n1 0\n")?;
    show(rt, boards::with(boards::both(), 8), 45, b"p cnf 4 1\n1 0\n")?;
    show(
        rt,
        boards::with_second(boards::both(), 8),
        45,
        b"p cnf 4 1\n1 0\n",
    )?;
    show(rt, blank(0, 2, 2), 45, b"")?;
    show(rt, blank(4, 3, 3), 45, b"p cnf 4 2\n1 0\n")?;
    show(rt, blank(4, 3, 3), 45, b"p cnf 5 2\n5 0\n0\n")
}

// 15, some texts of those in `dimacs/proofs/Vectors`: no header, a line ahead of it that is no comment, one count, a count above 32,767, a comment
// behind it, too few clauses, an unfinished one, a literal beyond the header's variables, one that is 1 where 64 bits are kept, and marks.
fn broken(rt: &impl Print) -> io::Result<()> {
    read(
        rt,
        b"/\
          \np cnf 4 1\n1 0\n/\
          p cnf 4\n1 0\n/\
          p cnf 4 32768\n1 0\n/\
          p cnf 4 1\nc\n1 0\n/\
          p cnf 4 2\n1 0\n/\
          p cnf 4 1\n1 2\n/\
          p cnf 3 1\n1 4 0\n/\
          p cnf 32767 1\n-18446744073709551617 0\n/\
          p cnf 4 1\n1 -0 0\n/\
          p cnf 4 1\n1-2 0\n/\
          p cnf 4 1\r\n1 0\r\n",
    )
}

// Comments; blanks and line ends wherever there may be any, and none at the end; leading zeros; fewer variables than S, and more; a literal
// twice, and the literals in no order; no clause.
fn taken(rt: &impl Print) -> io::Result<()> {
    read(
        rt,
        b"c\nc p cnf 9 9\ncnf 1 0\np cnf 4 1\n1 0\n/\
          p cnf  4   2  \n\n 2\n 1  0 -3 \n0/\
          p cnf 04 0001\n-003 01 00\n/\
          p cnf 4 1\n-4 1 0/\
          p cnf 2 1\n-2 0\n/\
          p cnf 32767 1\n4 0\n/\
          p cnf 4 1\n4 -3 4 -2 -3 0\n/\
          p cnf 0 0",
    )
}

// The rows of three clauses fill the table; those of two fill a shorter one, whose last eight numbers are no row. An always true clause has no
// row: it is taken behind them, and where no row is free. A reading keeps the premises of both furnaces.
fn rows(rt: &impl Print) -> io::Result<()> {
    read(rt, b"p cnf 4 3\n1 0\n2 4 0\n-3 0\n")?;
    show(rt, boards::both(), 44, b"p cnf 4 2\n1 0\n2 4 0\n")?;
    read(rt, b"p cnf 4 4\n1 0\n2 4 0\n-3 0\n1 -2 -1 0\n")?;
    read_full(
        rt,
        b"p cnf 4 1\n1 -2 -1 0\n/\
          p cnf 4 0\n",
    )?;
    show(
        rt,
        boards::with_second(boards::both(), 2),
        45,
        b"p cnf 4 1\n1 0\n",
    )
}

// Each clause is one rule more, an always true one between two others too. The last two rules that have a number, one of them with no row; and 9 in
// the middle of a text by a third, with a row and with none.
fn rules(rt: &impl Print) -> io::Result<()> {
    read(rt, b"p cnf 4 3\n1 0\n2 -2 0\n-3 0\n")?;
    each(
        rt,
        blank(4, 2, 32765),
        45,
        b"p cnf 4 2\n1 0\n2 -2 0\n/\
          p cnf 4 2\n2 -2 0\n1 0\n/\
          p cnf 4 4\n1 0\n2 -2 0\n3 0\n4 0\n/\
          p cnf 4 4\n1 0\n2 0\n3 -3 0\n4 0\n",
    )
}

// With all 32,767 counted: 9 by a clause with a row and by one with none, and 15, 2, 7 and 8 ahead of it. A text of no clause is taken.
fn no_number_left(rt: &impl Print) -> io::Result<()> {
    each(
        rt,
        blank(200, 2, 32767),
        45,
        b"p cnf 4 1\n1 0\n/\
          p cnf 4 1\n1 -1 0\n/\
          p cnf 4 2\n1 0\n/\
          p cnf 201 1\n201 0\n/\
          p cnf 9 1\n1 2 3 4 5 6 7 8 9 0\n/\
          p cnf 4 1\n0\n/\
          p cnf 4 0\n",
    )
}

// Eight symbols, also with one of them twice; 7 by nine, also in an always true clause.
fn symbols(rt: &impl Print) -> io::Result<()> {
    read_wide(
        rt,
        b"p cnf 200 1\n200 -199 198 197 196 195 194 -193 0\n/\
          p cnf 8 1\n1 2 3 4 5 6 7 8 8 0\n/\
          p cnf 9 1\n1 2 3 4 5 6 7 8 9 0\n/\
          p cnf 9 2\n1 0\n1 2 3 4 5 6 7 8 9 -9 0\n",
    )
}

// 2 by literals that the header's variables have and the board has not; 8 by an empty clause; 9 where no row is free, where the text's own
// clauses have filled the table, and where an always true one stands among them.
fn at_fault(rt: &impl Print) -> io::Result<()> {
    read(
        rt,
        b"p cnf 5 2\n1 0\n2 -5 0\n/\
          p cnf 32767 1\n-32767 0\n",
    )?;
    read_wide(rt, b"p cnf 201 1\n201 0\n")?;
    read(
        rt,
        b"p cnf 4 1\n0\n/\
          p cnf 4 3\n1 0\n0\n2 0\n",
    )?;
    read_full(rt, b"p cnf 4 1\n1 0\n")?;
    read(
        rt,
        b"p cnf 4 4\n1 0\n2 0\n3 0\n4 0\n/\
          p cnf 4 5\n1 0\n2 0\n3 -3 0\n3 0\n4 0\n",
    )?;
    show(rt, boards::both(), 44, b"p cnf 4 3\n1 0\n2 0\n3 0\n")
}

// 15 at the end of a text is ahead of 2, 7, 8 and 9 in its first clause.
fn form_first(rt: &impl Print) -> io::Result<()> {
    read(rt, b"p cnf 5 2\n5 0\nx 0\n")?;
    read_wide(rt, b"p cnf 9 2\n1 2 3 4 5 6 7 8 9 0\n")?;
    read(rt, b"p cnf 4 2\n0\n1")?;
    read_full(rt, b"p cnf 4 2\n1 0\n5 0\n")
}

// "for the first clause at fault": 7, 8 and 9 each ahead of 2 in the next clause, 9 ahead of 8, and 2 ahead of 8.
fn first_clause(rt: &impl Print) -> io::Result<()> {
    read_wide(rt, b"p cnf 201 2\n1 2 3 4 5 6 7 8 9 0\n201 0\n")?;
    read(rt, b"p cnf 5 3\n1 0\n0\n5 0\n")?;
    read_full(
        rt,
        b"p cnf 5 2\n1 0\n5 0\n/\
          p cnf 4 2\n1 0\n0\n/\
          p cnf 5 3\n3 -3 0\n-5 0\n0\n",
    )
}

// In one clause 2 is ahead of 7 and of 9, 7 of 9, and 8 of 9; an always true one gives 2 and 7 too. One that gives 8 has no literal for 2 or 7.
fn one_clause(rt: &impl Print) -> io::Result<()> {
    read_wide(rt, b"p cnf 201 1\n1 2 3 4 5 6 7 8 9 201 0\n")?;
    read_wide_full(rt, b"p cnf 201 1\n201 1 2 3 4 5 6 7 8 0\n")?;
    read_full(
        rt,
        b"p cnf 5 1\n5 0\n/\
          p cnf 5 1\n5 -5 0\n",
    )?;
    read_wide_full(
        rt,
        b"p cnf 9 1\n1 2 3 4 5 6 7 8 9 0\n/\
          p cnf 9 1\n1 2 3 4 5 6 7 8 9 -9 0\n",
    )?;
    read_full(rt, b"p cnf 4 1\n0\n")
}

fn write(rt: &impl Print, b: Board, room: usize) -> io::Result<()>
    requires { room ≤ 100 }
{
    printing::on(rt, b, 45)?;
    telling::write(rt, b, &boards::rows(), room)?;
    printing::end(rt)
}

// 1, also by furnace 2's premise of symbol 5 of 4, by the number of a row and by the count of rules, and ahead of 13; 13 with no room and with one
// byte too few; exactly enough, and more. Then boards with no row in use.
fn writing(rt: &impl Print) -> io::Result<()> {
    write(rt, blank(0, 2, 2), 100)?;
    write(rt, boards::with_second(boards::both(), 8), 100)?;
    write(rt, blank(4, 3, 3), 0)?;
    write(rt, blank(4, 2, 1), 100)?;
    write(rt, blank(4, 2, 32768), 100)?;
    write(rt, boards::both(), 0)?;
    write(rt, boards::both(), 26)?;
    write(rt, boards::both(), 27)?;
    write(rt, boards::both(), 100)?;
    write(rt, blank(4, 0, 0), 9)?;
    write(rt, blank(4, 0, 0), 10)?;
    write(rt, blank(200, 0, 0), 100)
}

// Writes the rows in use in as many bytes as they take, and reads these onto a new board of as many symbols.
fn back(rt: &impl Print, b: Board, table: [i16; 45], room: usize, lent: usize) -> io::Result<()>
    requires { (room ≤ 100) × (lent ≤ 45) }
{
    let mut out = [BYTE; 100];
    let new = blank(b.symbols, 0, 0);
    printing::on(rt, b, 45)?;
    telling::write_in(rt, b, &table, &mut out, room)?;
    printing::end(rt)?;
    printing::on(rt, new, lent)?;
    telling::read(rt, new, [GUARD; 45], lent, &out[..room])?;
    printing::end(rt)
}

// With as many rows lent, and with one fewer; the same rows with other numbers, of which the text has none; then a row of eight literals, and two
// equal rows from one rule. On the new board row r is from rule r + 1.
fn round_trips(rt: &impl Print) -> io::Result<()> {
    back(rt, boards::both(), boards::rows(), 27, 18)?;
    back(rt, boards::both(), boards::rows(), 27, 17)?;
    back(rt, blank(4, 2, 9), boards::numbered(4, 9), 27, 45)?;
    let wide = boards::three_rows(
        [-1, 20, -30, 40, -197, 198, 199, -200, 1],
        [5, 0, 0, 0, 0, 0, 0, 0, 2],
        [5, 0, 0, 0, 0, 0, 0, 0, 2],
    );
    back(rt, blank(200, 3, 2), wide, 53, 45)
}

pub fn run(rt: &impl Print) -> io::Result<()> {
    spoilt(rt)?;
    broken(rt)?;
    taken(rt)?;
    rows(rt)?;
    rules(rt)?;
    no_number_left(rt)?;
    symbols(rt)?;
    at_fault(rt)?;
    form_first(rt)?;
    first_clause(rt)?;
    one_clause(rt)?;
    writing(rt)?;
    round_trips(rt)
}
