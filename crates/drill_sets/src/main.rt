// Runs the calls of `smallest` and `least` over boards, and prints what each call answers.
#![tactic(auto)]

mod faults;
mod tables;
mod telling;
mod tries;
mod withdrawals;

use std::io;

fn main(rt: HostRuntime) -> io::Result<()> {
    tries::run(&rt)?;
    faults::run(&rt)?;
    withdrawals::run(&rt)
}
