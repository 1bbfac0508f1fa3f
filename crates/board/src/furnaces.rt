// Two furnaces on one board: whose premises a call reads.

ghost use Rattle.std.specs.Prelude.{◌≡◌};
ghost use Rattle.board.specs.Furnaces.{set_of};

// The premises of a furnace: of both sets that are lent its own, and for another number none.
pub fn premises<'a>(first: &'a [bool], second: &'a [bool], furnace: u8) -> &'a [bool]
    ensures { result.now ≡ set_of furnace first.now second.now }
{
    if furnace == 1 {
        return first;
    }
    if furnace == 2 {
        return second;
    }
    &second[..0]
}
