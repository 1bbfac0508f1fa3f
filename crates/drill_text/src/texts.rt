// Formula text read and added: each refusal with its place, the order of the tests, and texts that are taken.

ghost use Rattle.std.specs.Prelude.{◌≤◌};

use crate::telling;
use board::Board;
use report::boards::blank;
use report::quoting::quoted;
use report::{boards, pieces, printing};
use std::io;

// Adds the rule of a text, and reads the text to bytes with so many bytes lent, each on the same board.
pub fn show(rt: &impl Print, b: Board, lent: usize, room: usize, words: &[u8]) -> io::Result<()>
    requires { (lent ≤ 45) × (room ≤ 100) }
{
    let table = boards::rows();
    printing::on(rt, b, lent)?;
    quoted(rt, words, words.len())?;
    telling::add(rt, b, table, lent, words)?;
    telling::read(rt, b, &table[..lent], words, room)?;
    printing::end(rt)
}

// Each text of a list, each by itself. A byte `/`, which no text has, stands between two.
fn each(rt: &impl Print, b: Board, lent: usize, room: usize, list: &[u8]) -> io::Result<()>
    requires { (lent ≤ 45) × (room ≤ 100) }
{
    pieces::each(list, |words| show(rt, b, lent, room, words))
}

// On the board of 4 symbols and two rows, with three free rows and 50 bytes.
fn tried(rt: &impl Print, list: &[u8]) -> io::Result<()> {
    each(rt, boards::both(), 45, 50, list)
}

// 1: S of 0 and 201, fewer rows lent than are in use, a premise of symbol 5 of 4, held by furnace 1, and by furnace 2, more rules counted than there
// are numbers, a row of rule 2 where one rule is counted, a row whose literals are not sound. And 1 is ahead of 15, 2, 5, 8 and 13.
fn spoilt(rt: &impl Print) -> io::Result<()> {
    each(rt, blank(0, 2, 2), 45, 50, b"1")?;
    each(rt, blank(201, 2, 2), 45, 50, b"1")?;
    each(rt, boards::none(), 17, 50, b"1")?;
    each(rt, boards::with(boards::both(), 8), 45, 50, b"1")?;
    each(rt, boards::with_second(boards::both(), 8), 45, 50, b"1")?;
    each(rt, blank(4, 2, 32768), 45, 50, b"1")?;
    each(rt, blank(4, 2, 1), 45, 50, b"1")?;
    each(rt, blank(4, 3, 3), 45, 0, b"1//1&/5/----------------1/1&-1")
}

// 15 at the length of a text cut short: nothing, spaces alone, a mark or `-` or `(` with nothing behind it, a bracket that is not closed.
fn cut_short(rt: &impl Print) -> io::Result<()> {
    tried(rt, b"/  /1&/1 > /-/- -/(/(1/(1|(2&3)/----------------")
}

// 15 at the first byte that no text of the form can have there. In a chain: another mark than its first, a second `>` or `=`, one of these
// behind `&` or `|` and the other way round; the same in a bracket. Where a unit is due: a mark, `)`. Behind a unit: another unit, `)` too many.
fn offending(rt: &impl Print) -> io::Result<()> {
    tried(
        rt,
        b"1 & -2 > 3/1&2|3/1|2&3/1>2>3/1=2=3/1>2=3/1|2=3/1=2&3/4&(3|2&1)/1 2/1(2)/(1)2/1-2/&1/1&&2/()/1)/(1))",
    )
}

// Bytes that no text has: a letter, a tab, a line end, a byte above 127, and a byte of no value.
fn strange(rt: &impl Print) -> io::Result<()> {
    tried(rt, b"a/1+2/1\t&2/1\n/1\x80/\x00")
}

// "at most 16 brackets may be open at once": sixteen, one more, sixteen and another once these are closed, and a seventeenth in the second unit of
// a chain.
fn brackets(rt: &impl Print) -> io::Result<()> {
    tried(
        rt,
        b"((((((((((((((((1))))))))))))))))/(((((((((((((((((1)))))))))))))))))/\
          ((((((((((((((((1))))))))))))))))|(2)/-((((((((((((((((1|--(2)",
    )
}

// 15 at the end of a text is ahead of 2 and 5 at its front, and of 8; where no row is free and no byte is lent it is ahead of 9 and 13 too; and it is
// ahead of 7.
fn form_first(rt: &impl Print) -> io::Result<()> {
    tried(
        rt,
        b"5&/300 400/9|9&9/----------------1)/-----------------/1&-1&",
    )?;
    each(rt, boards::both(), 18, 0, b"1 2")?;
    each(rt, blank(200, 2, 2), 45, 50, b"1|2|3|4|5|6|7|8|9&1")
}

// 2 at the symbol's number in the bytes: 0, one more than S, numbers above 255, one of which is 1 where a byte is kept and one where 64 bits are. On
// a board of 200 symbols the last symbol is taken.
fn numbers(rt: &impl Print) -> io::Result<()> {
    tried(rt, b"0/000/5/300/256/257/18446744073709551617/-5/1&5/5>6")?;
    each(rt, blank(200, 2, 2), 45, 50, b"200/201/255")
}

// 5 where an operand would stand at depth 17: sixteen `-`, fifteen in a form of two operands, seventeen units in a chain. One fewer of each is taken,
// and brackets add no depth.
fn depth(rt: &impl Print) -> io::Result<()> {
    tried(
        rt,
        b"----------------1/---------------1/1&---------------2/1&--------------2/\
          1|1|1|1|1|1|1|1|1|1|1|1|1|1|1|1|1/1|1|1|1|1|1|1|1|1|1|1|1|1|1|1|1/---------------((1))/\
          --------(-------(1))/--------(--------(1))",
    )
}

// "whichever of 2 and 5 the resulting byte formula meets first": a chain groups from the left, so that its last unit is the last that the bytes have.
fn first_met(rt: &impl Print) -> io::Result<()> {
    tried(
        rt,
        b"----------------5/---------------5/5&----------------1/---------------1&5/--------------1&5/\
          5|1|1|1|1|1|1|1|1|1|1|1|1|1|1|1|1/1|1|1|1|1|1|1|1|1|1|1|1|1|1|1|5",
    )
}

// Eight symbols, and 7 by nine, ahead of 8 and 9; 2 is ahead of 7, and a text of nine symbols is read to bytes all the same.
fn symbols(rt: &impl Print) -> io::Result<()> {
    each(
        rt,
        blank(200, 2, 2),
        45,
        50,
        b"200|199|198|197|196|195|194|193/1|2|3|4|5|6|7|8|9/1&-1&2&3&4&5&6&7&8&9/1|2|3|4|5|6|7|8|201",
    )?;
    each(rt, blank(200, 2, 2), 18, 50, b"1|2|3|4|5|6|7|8|9")
}

// 8 by a rule that no assignment satisfies, also where no row is free; 9 with no row free and with one too few; the last free row; an always true
// rule has no row. 2 and 5 are ahead of 9, and 2 of 8. A rule keeps the premises of both furnaces.
fn rows(rt: &impl Print) -> io::Result<()> {
    tried(rt, b"1&-1/1|-1/(1|2)&(-1|3)")?;
    each(rt, boards::both(), 44, 50, b"(1|2)&(-1|3)")?;
    each(rt, boards::both(), 27, 50, b"1>2")?;
    each(
        rt,
        boards::both(),
        18,
        50,
        b"1/1&-1/1|-1/5&-5/----------------1",
    )?;
    each(rt, boards::with_second(boards::both(), 2), 45, 50, b"1")
}

// A board that counts 32,766 rules takes one more, with a row and with none. One that counts 32,767 gives 9 to both, and 15, 2, 5, 7 and 8 are ahead
// of it; a text that is read to bytes is no rule.
fn last_rule(rt: &impl Print) -> io::Result<()> {
    each(rt, blank(200, 2, 32766), 45, 50, b"1/1|-1")?;
    each(
        rt,
        blank(200, 2, 32767),
        45,
        50,
        b"1/1|-1/1&/201/----------------1/1|2|3|4|5|6|7|8|9/1&-1",
    )
}

// 13 with no byte lent and with one too few, and not with exactly enough; 2 and 5 are ahead of it. Adding a rule needs no bytes lent.
fn room(rt: &impl Print) -> io::Result<()> {
    each(rt, boards::both(), 45, 0, b"1/5/----------------1")?;
    each(rt, boards::both(), 45, 2, b"1/-1")?;
    each(rt, boards::both(), 45, 5, b"1>2/-(1>2)")
}

// "grouped from the left"; brackets that group otherwise, and brackets round what needs none; leading zeros; "Spaces may stand round any mark", at
// the front and at the end.
fn taken(rt: &impl Print) -> io::Result<()> {
    tried(
        rt,
        b"1|2|3|4/1&2&3/1&(2&3)/(1&-2)>3/-(1=2)/1=2/2>1/((1))/0001/ 1 / - ( 1 | - 2 ) /  (1 & - -2) = 3  ",
    )
}

// A `1` with 127 zeros in front, the longest of the short texts; with a mark and nothing behind it, and with symbol 5 of 4; and one with 128 zeros.
fn zeros(rt: &impl Print) -> io::Result<()> {
    let mut words = [b'0'; 130];
    words[127] = b'1';
    words[128] = b'&';
    words[129] = b'5';
    show(rt, boards::both(), 45, 50, &words[..128])?;
    show(rt, boards::both(), 45, 50, &words[..129])?;
    show(rt, boards::both(), 45, 50, &words)?;
    words[127] = b'0';
    words[128] = b'1';
    show(rt, boards::both(), 45, 50, &words[..129])
}

// Texts of more than 128 bytes, for which the calls use a larger buffer: 5 by 65 units, and 15 at the end of these; 216 units, whose 647
// bytes are more than a short text's; and sixteen units of eight digits, whose 47 bytes fit and then do not.
fn long(rt: &impl Print) -> io::Result<()> {
    tried(
        rt,
        b"1|1|1|1|1|1|1|1|1|1|1|1|1|1|1|1|1|1|1|1|1|1|1|1|1|1|1|1|1|1|1|1|1|1|1|1|1|1|1|1|1|1|1|1|1|1|1|1|1|1|1|1|1|1|1|1|1|1|1|1|1|1|1|1|1/\
          1|1|1|1|1|1|1|1|1|1|1|1|1|1|1|1|1|1|1|1|1|1|1|1|1|1|1|1|1|1|1|1|1|1|1|1|1|1|1|1|1|1|1|1|1|1|1|1|1|1|1|1|1|1|1|1|1|1|1|1|1|1|1|1|1|/\
          ((1|2|1|2|1|2)|(1|2|1|2|1|2)|(1|2|1|2|1|2)|(1|2|1|2|1|2)|(1|2|1|2|1|2)|(1|2|1|2|1|2))|\
          ((1|2|1|2|1|2)|(1|2|1|2|1|2)|(1|2|1|2|1|2)|(1|2|1|2|1|2)|(1|2|1|2|1|2)|(1|2|1|2|1|2))|\
          ((1|2|1|2|1|2)|(1|2|1|2|1|2)|(1|2|1|2|1|2)|(1|2|1|2|1|2)|(1|2|1|2|1|2)|(1|2|1|2|1|2))|\
          ((1|2|1|2|1|2)|(1|2|1|2|1|2)|(1|2|1|2|1|2)|(1|2|1|2|1|2)|(1|2|1|2|1|2)|(1|2|1|2|1|2))|\
          ((1|2|1|2|1|2)|(1|2|1|2|1|2)|(1|2|1|2|1|2)|(1|2|1|2|1|2)|(1|2|1|2|1|2)|(1|2|1|2|1|2))|\
          ((1|2|1|2|1|2)|(1|2|1|2|1|2)|(1|2|1|2|1|2)|(1|2|1|2|1|2)|(1|2|1|2|1|2)|(1|2|1|2|1|2))",
    )?;
    each(
        rt,
        boards::both(),
        45,
        47,
        b"00000001|00000002|00000003|00000004|00000001|00000002|00000003|00000004|\
          00000001|00000002|00000003|00000004|00000001|00000002|00000003|00000004",
    )?;
    each(
        rt,
        boards::both(),
        45,
        46,
        b"00000001|00000002|00000003|00000004|00000001|00000002|00000003|00000004|\
          00000001|00000002|00000003|00000004|00000001|00000002|00000003|00000004",
    )
}

pub fn run(rt: &impl Print) -> io::Result<()> {
    spoilt(rt)?;
    cut_short(rt)?;
    offending(rt)?;
    strange(rt)?;
    brackets(rt)?;
    form_first(rt)?;
    numbers(rt)?;
    depth(rt)?;
    first_met(rt)?;
    symbols(rt)?;
    rows(rt)?;
    last_rule(rt)?;
    room(rt)?;
    taken(rt)?;
    zeros(rt)?;
    long(rt)
}
