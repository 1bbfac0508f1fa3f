// Runs the calls of `positions` over boards, and prints what each call answers; then what is ruled out by the rows that they add.
#![tactic(auto)]

mod faults;
mod networks;
mod rows;
mod telling;
mod valves;

use std::io;

fn main(rt: HostRuntime) -> io::Result<()> {
    rows::run(&rt)?;
    faults::run(&rt)?;
    networks::run(&rt)
}
