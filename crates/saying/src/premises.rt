// What a furnace holds, and what of it is on trial.

ghost use Rattle.std.specs.Prelude.{◌<◌};

use orders::Desk;

// The literal of a place: +s at 2(s - 1), -s next.
pub fn literal_of(p: usize) -> i16
    requires { p < 400 }
{
    let s = (p / 2 + 1) as i16;
    if p % 2 == 0 { s } else { -s }
}

// Whether a furnace holds a literal.
pub fn is_held(desk: Desk, l: i16) -> bool {
    if !literals::in_range(l, 200) {
        return false;
    }
    let p = literals::place(l);
    let board = desk.board;
    if desk.furnace == 1 {
        return board.first[p];
    }
    board.second[p]
}

// The literals on trial at the furnace that is worked, as many as there are.
pub fn on_trial(desk: Desk) -> stack::Stack {
    let stacks = desk.stacks;
    if desk.furnace == 1 {
        return stacks.first;
    }
    stacks.second
}

// Whether a literal is among the first so many of a stack's places.
pub fn is_tried(desk: Desk, l: i16) -> bool {
    let tried = on_trial(desk);
    let count = (tried.count as usize).min(400);
    tried.literals[..count].contains(&l)
}

// The literal that was put on trial last; 0 where there is none.
pub fn last_tried(desk: Desk) -> i16 {
    let tried = on_trial(desk);
    let count = tried.count as usize;
    if count < 1 {
        return 0;
    }
    if 400 < count {
        return 0;
    }
    tried.literals[count - 1]
}
