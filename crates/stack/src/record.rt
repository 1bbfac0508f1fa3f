// The record of both stacks: whose stack is whose, and a stack with a literal more or one less.

ghost use Rattle.std.specs.Prelude.{◌≡◌, ◌<◌, ◌≤◌};
ghost use Rattle.stack.specs.Stacking.{empty_stack, empty_stacks, stack_of, with_stack, top, on_top, less_top};

use crate::{Stack, Stacks};

// A stack with nothing on it.
fn empty_stack() -> Stack
    ensures { result ≡ empty_stack }
{
    Stack {
        count: 0,
        literals: [0; 400],
    }
}

pub fn empty_stacks() -> Stacks
    ensures { result ≡ empty_stacks }
{
    Stacks {
        first: empty_stack(),
        second: empty_stack(),
    }
}

// The stack of a furnace; for another number an empty one.
pub fn stack_of(stacks: Stacks, furnace: u8) -> Stack
    ensures { result ≡ stack_of stacks furnace }
{
    if furnace == 1 {
        return stacks.first;
    }
    if furnace == 2 {
        return stacks.second;
    }
    empty_stack()
}

// The record with another stack for a furnace; for another number as it was.
fn with_stack(stacks: Stacks, furnace: u8, stack: Stack) -> Stacks
    ensures { result ≡ with_stack stacks furnace stack }
{
    let mut next = stacks;
    if furnace == 1 {
        next.first = stack;
        return next;
    }
    if furnace == 2 {
        next.second = stack;
    }
    next
}

// The record with a literal on top of a furnace's stack. That there is room `push` knows: the stack has only what is held, and this literal was not.
pub fn on_top(stacks: Stacks, furnace: u8, l: i16) -> Stacks
    requires { (stack_of stacks furnace).count < 400 }
    ensures { result ≡ with_stack stacks furnace (on_top (stack_of stacks furnace) l) }
{
    let mut stack = stack_of(stacks, furnace);
    let at = stack.count as usize;
    stack.literals[at] = l;
    stack.count = stack.count + 1;
    with_stack(stacks, furnace, stack)
}

// The literal on top of a stack that has one.
pub fn top_of(stack: Stack) -> i16
    requires { (1 ≤ stack.count) × (stack.count ≤ 400) }
    ensures { result ≡ top stack }
{
    stack.literals[stack.count as usize - 1]
}

// The record without the top of a furnace's stack, and 0 in its place.
pub fn less_top(stacks: Stacks, furnace: u8) -> Stacks
    requires { (1 ≤ (stack_of stacks furnace).count) × ((stack_of stacks furnace).count ≤ 400) }
    ensures { result ≡ with_stack stacks furnace (less_top (stack_of stacks furnace)) }
{
    let mut stack = stack_of(stacks, furnace);
    let at = stack.count as usize - 1;
    stack.literals[at] = 0;
    stack.count = stack.count - 1;
    with_stack(stacks, furnace, stack)
}
