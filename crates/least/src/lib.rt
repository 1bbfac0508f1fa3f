// The furnace foreman's least to withdraw.
#![tactic(auto)]

pub mod call;
mod effects;
mod search;

use board::Outcome;

// No set: what is answered where the call is refused. No Option, since `RefusedHandsBack` in `promises` names the number.
pub const NO_SET: u16 = 65535;

// What the call answers: the set of candidates to withdraw, none where it was refused: `RefusedHandsBack` in `promises` says it of this number.
#[derive(Clone, Copy)]
pub struct Withdrawal {
    pub outcome: Outcome,
    pub set: u16,
}
