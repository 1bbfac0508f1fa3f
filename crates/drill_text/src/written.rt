// Text written of a formula's bytes: each refusal, the spelling, and reading what was written.

ghost use Rattle.std.specs.Prelude.{◌≤◌};

use crate::telling::FREE;
use crate::{telling, texts};
use board::Board;
use report::boards::blank;
use report::{boards, pieces, printing};
use std::io;

fn show(rt: &impl Print, b: Board, room: usize, bytes: &[u8]) -> io::Result<()>
    requires { room ≤ 100 }
{
    printing::on(rt, b, 45)?;
    telling::write(rt, b, &boards::rows(), bytes, room)?;
    printing::end(rt)
}

// The text of each formula of a list, each by itself. A byte `/` stands between two.
fn each(rt: &impl Print, b: Board, room: usize, list: &[u8]) -> io::Result<()>
    requires { room ≤ 100 }
{
    pieces::each(list, |bytes| show(rt, b, room, bytes))
}

// 1: S of 0 and 201, a premise of symbol 5 of 4, held by furnace 1, and by furnace 2, more rules counted than there are numbers, a row of rule 2
// where one rule is counted, a row whose literals are not sound. And 1 is ahead of 3, 4 and 13.
fn spoilt(rt: &impl Print) -> io::Result<()> {
    each(rt, blank(0, 2, 2), 100, b"\x10\x01")?;
    each(rt, blank(201, 2, 2), 100, b"\x10\x01")?;
    each(rt, boards::with(boards::both(), 8), 100, b"\x10\x01")?;
    each(rt, boards::with_second(boards::both(), 8), 100, b"\x10\x01")?;
    each(rt, blank(4, 2, 32768), 100, b"\x10\x01")?;
    each(rt, blank(4, 2, 1), 100, b"\x10\x01")?;
    each(rt, blank(4, 3, 3), 0, b"\x10\x01//\x16")
}

// 3 by no byte, a symbol with no number, one operand of two, and a second one with no number; 2 by symbols 0, 201 and 255 of 200; 4 by kinds 0f and
// 16, also as a second operand; 5 by sixteen "not" and no more; 6 by a byte more, and 2 ahead of it. The writer gives no 7 and no 8.
fn faults(rt: &impl Print) -> io::Result<()> {
    each(
        rt,
        blank(200, 2, 2),
        100,
        b"/\x10/\x14\x10\x01/\x14\x10\x01\x10/\x10\x00/\x10\xc9/\x10\xff/\x0f\x01/\x16\x01/\x14\x10\x01\x16/\
          \x11\x11\x11\x11\x11\x11\x11\x11\x11\x11\x11\x11\x11\x11\x11\x11/\x10\x01\x10/\x10\x00\x10/\
          \x12\x10\x01\x11\x10\x01/\
          \x13\x10\x01\x13\x10\x02\x13\x10\x03\x13\x10\x04\x13\x10\x05\x13\x10\x06\x13\x10\x07\x13\x10\x08\x10\x09",
    )
}

// "brackets round each two-operand form but the whole formula, no blanks, no leading zeros".
fn spelling(rt: &impl Print) -> io::Result<()> {
    each(
        rt,
        blank(200, 2, 2),
        100,
        b"\x10\x01/\x10\x0a/\x10\xc8/\x11\x11\x10\x01/\x12\x10\x01\x10\x02/\x13\x10\x01\x10\x02/\
          \x14\x10\x01\x10\x02/\x15\x10\x01\x10\x02/\x11\x15\x10\x01\x10\x02/\
          \x14\x12\x10\x01\x11\x10\x02\x10\x03/\x12\x10\x01\x12\x10\x02\x10\x03/\
          \x11\x11\x11\x11\x11\x11\x11\x11\x11\x11\x11\x11\x11\x11\x11\x10\x04",
    )
}

// 13 with no byte lent, and 2 to 6 ahead of it; exactly enough bytes, and one too few.
fn room(rt: &impl Print) -> io::Result<()> {
    each(
        rt,
        boards::both(),
        0,
        b"\x10\x01/\x10\x05/\x10/\x16/\x11\x11\x11\x11\x11\x11\x11\x11\x11\x11\x11\x11\x11\x11\x11\x11/\x10\x01\x10",
    )?;
    each(
        rt,
        boards::both(),
        3,
        b"\x14\x10\x01\x10\x02/\x12\x10\x01\x11\x10\x02",
    )
}

// Writes the text of a formula's bytes in as many bytes as it takes, and adds the bytes as a rule; then reads the text to bytes, and adds it.
fn back(rt: &impl Print, b: Board, bytes: &[u8], room: usize) -> io::Result<()>
    requires { room ≤ 100 }
{
    let mut out = [FREE; 100];
    printing::on(rt, b, 45)?;
    telling::write_in(rt, b, &boards::rows(), bytes, &mut out, room)?;
    calls::rule(rt, b, boards::rows(), 45, bytes)?;
    printing::end(rt)?;
    texts::show(rt, b, 45, 100, &out[..room])
}

// "reading it gives the same bytes", and "Text and bytes of one formula add the same rows": also of a formula of depth 16.
fn round_trips(rt: &impl Print) -> io::Result<()> {
    back(
        rt,
        boards::both(),
        b"\x14\x12\x10\x01\x11\x10\x02\x10\x03",
        8,
    )?;
    back(
        rt,
        boards::both(),
        b"\x15\x10\x04\x11\x13\x10\x01\x10\x02",
        8,
    )?;
    back(rt, boards::both(), b"\x12\x10\x01\x12\x10\x02\x10\x03", 7)?;
    back(rt, blank(200, 2, 2), b"\x13\x10\xc8\x11\x10\x64", 8)?;
    back(
        rt,
        boards::both(),
        b"\x13\x13\x13\x13\x13\x13\x13\x13\x13\x13\x13\x13\x13\x13\x13\
          \x10\x01\x10\x02\x10\x03\x10\x04\x10\x01\x10\x02\x10\x03\x10\x04\
          \x10\x01\x10\x02\x10\x03\x10\x04\x10\x01\x10\x02\x10\x03\x10\x04",
        59,
    )
}

pub fn run(rt: &impl Print) -> io::Result<()> {
    spoilt(rt)?;
    faults(rt)?;
    spelling(rt)?;
    room(rt)?;
    round_trips(rt)
}
