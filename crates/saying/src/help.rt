// What the lines are, and the limits.

use crate::pieces::say;
use std::io;

fn help_with_board(rt: &impl Print) -> io::Result<()> {
    say(
        rt,
        b"  open N               a board of N symbols, 1 to 200; names and rules are forgotten\n",
    )?;
    say(
        rt,
        b"  name S WORD          a name for symbol S: 3 to 24 letters, digits and _, a letter first\n",
    )?;
    say(
        rt,
        b"  rule TEXT            a rule, of symbols by number or name, - not, & and, | or,\n",
    )?;
    say(
        rt,
        b"                       > implies, = same, and brackets: rule (tc3_high & -4) > crown_hot\n",
    )?;
    say(
        rt,
        b"  valve S N            a valve of N positions, the symbols from S on: exactly one is true\n",
    )?;
    say(
        rt,
        b"  pairs S N T M MARKS  which positions of two valves may stand together: a word for each\n",
    )?;
    say(
        rt,
        b"                       of the first, in it 1 or 0 for each of the second\n",
    )?;
    say(
        rt,
        b"  rows, cnf            the rows of the table, in words and as DIMACS text\n",
    )
}

fn help_with_premises(rt: &impl Print) -> io::Result<()> {
    say(
        rt,
        b"  furnace N            the furnace that lines work from here on, 1 or 2\n",
    )?;
    say(
        rt,
        b"  hold L, drop L       holds a literal, a symbol or - and a symbol; withdraws it\n",
    )?;
    say(
        rt,
        b"  push L, pop          holds a literal on trial; takes back the last one\n",
    )?;
    say(
        rt,
        b"  ask L                whether it stands, is ruled out, open or in conflict\n",
    )?;
    say(
        rt,
        b"  why L                the rules and premises that it comes by, as a tree\n",
    )?;
    say(
        rt,
        b"  ground L             the premises that it stands on\n",
    )?;
    say(
        rt,
        b"  marks                all that stands and all that is ruled out\n",
    )?;
    say(
        rt,
        b"  blame                the premises to blame for a conflict\n",
    )?;
    say(
        rt,
        b"  least L L ..         the least of these to drop so that a conflict ends;\n",
    )?;
    say(
        rt,
        b"                       with none named, of all that is held\n",
    )?;
    say(
        rt,
        b"  sets L C C ..        the smallest sets of the literals C that carry L\n",
    )
}

pub fn help(rt: &impl Print) -> io::Result<()> {
    help_with_board(rt)?;
    help_with_premises(rt)?;
    say(
        rt,
        b"  echo on, echo off    prints each line ahead of its answer\n",
    )?;
    say(rt, b"  help                 these lines\n")?;
    say(
        rt,
        b"  A line that begins with # is taken and not answered. The end of the input ends the desk.\n",
    )?;
    say(
        rt,
        b"  Limits: 500 bytes a line, 24 bytes a name, 200 symbols, 2048 rows; the text of rules\n",
    )?;
    say(rt, b"  1 to 2048 is kept.\n")
}
