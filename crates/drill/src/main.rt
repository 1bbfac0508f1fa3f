// Runs the calls of `board` over the boards that document 01 lists and over every refusal, for furnace 1, in `furnaces` and `asking` for both and in
// `grounds` for furnace 2, and prints what each call answers.
#![tactic(auto)]

mod asking;
mod faults;
mod furnaces;
mod grounds;
mod journal;
mod lengths;
mod literals_given;
mod named;
mod numbers;
mod opening;
mod rules;

use std::io;

fn main(rt: HostRuntime) -> io::Result<()> {
    opening::run(&rt)?;
    rules::run(&rt)?;
    numbers::run(&rt)?;
    faults::run(&rt)?;
    literals_given::run(&rt)?;
    furnaces::run(&rt)?;
    asking::run(&rt)?;
    grounds::run(&rt)?;
    lengths::run(&rt)?;
    journal::run(&rt)
}
