// Every call that names a furnace.

ghost use Rattle.std.specs.Prelude.{◌≤◌};

use board::Board;
use std::io;

// Those that change its premises.
pub fn changing(rt: &impl Print, b: Board, table: &[i16], furnace: u8, l: i16) -> io::Result<()> {
    calls::hold(rt, b, table, furnace, l)?;
    calls::withdraw(rt, b, table, furnace, l)?;
    Ok(())
}

// Those that tell what they derive, with so many places lent where one writes.
pub fn reading(
    rt: &impl Print,
    b: Board,
    table: &[i16],
    furnace: u8,
    l: i16,
    places: usize,
) -> io::Result<()>
    requires { places ≤ 410 }
{
    calls::settle(rt, b, table, furnace, places, places, places)?;
    calls::ask(rt, b, table, furnace, l)?;
    calls::explain(rt, b, table, furnace, l)?;
    calls::ground(rt, b, table, furnace, l, places)?;
    calls::blame(rt, b, table, furnace, places)
}
