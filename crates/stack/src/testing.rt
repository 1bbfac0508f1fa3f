// Refusal 1 for the record: on either stack no more than 2S literals, each of them a premise of its furnace, and none twice.

ghost use Rattle.std.specs.Prelude.{◌≡◌, true, ◌&&◌, ◌≤◌, length};
ghost use Rattle.meaning.specs.Tests.{all, member};
ghost use Rattle.meaning.specs.Literals.{has};
ghost use Rattle.literals.specs.Literal.{in_range, place_of};
ghost use Rattle.candidates.specs.Given.{places_of};
ghost use Rattle.stack.specs.Stacking.{on_stack, good_stack, good_stacks};
ghost use Rattle.stack.specs.Striking.{all_struck};

use crate::{Stack, Stacks};
use board::Board;

// Whether a number is a literal of the board that stands among these flags. The board may be spoilt, and have more symbols than there are flags.
fn is_flagged(l: i16, symbols: usize, flags: &[bool]) -> bool
    requires { length flags.now ≡ 400 }
    ensures { result ≡ in_range symbols l && has flags.now (place_of l) }
{
    if !literals::in_range(l, symbols) {
        return false;
    }
    if !literals::in_range(l, 200) {
        return false;
    }
    flags[literals::place(l)]
}

// Whether each of the literals is a premise, and none stands twice: each strikes off its flag.
fn all_held(on: &[i16], symbols: usize, held: [bool; 400]) -> bool
    ensures { result ≡ all_struck symbols held on.now }
{
    let mut left = held;
    for l in on {
        if !is_flagged(*l, symbols, &left) {
            return false;
        }
        left[literals::place(*l)] = false;
    }
    true
}

// Whether a stack is good. Twice the symbols of a spoilt board may be no machine number, and its stack may count more literals than there are places.
fn good_stack(stack: Stack, symbols: usize, held: [bool; 400]) -> bool
    ensures { result ≡ good_stack symbols held stack }
{
    let count = stack.count as usize;
    if symbols < (count + 1) / 2 {
        return false;
    }
    let on = if count < 400 { count } else { 400 };
    let places = stack.literals;
    all_held(&places[..on], symbols, held)
}

pub fn good_stacks(board: Board, stacks: Stacks) -> bool
    ensures { result ≡ good_stacks board stacks }
{
    let first = board.first;
    if !good_stack(stacks.first, board.symbols, first) {
        return false;
    }
    let second = board.second;
    good_stack(stacks.second, board.symbols, second)
}

// Whether a literal is one of these.
fn is_on(on: &[i16], l: i16) -> bool
    requires { (all (in_range 200) on.now ≡ true) × (in_range 200 l ≡ true) }
    ensures { result ≡ member (place_of l) (places_of on.now) }
{
    on.contains(&l)
}

// Whether a literal of the board is on a good stack.
pub fn is_stacked(stack: Stack, l: i16) -> bool
    requires { (stack.count ≤ 400) × (all (in_range 200) (on_stack stack) ≡ true) × (in_range 200 l ≡ true) }
    ensures { result ≡ member (place_of l) (places_of (on_stack stack)) }
{
    let count = stack.count as usize;
    let places = stack.literals;
    is_on(&places[..count], l)
}
