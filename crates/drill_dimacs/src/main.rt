// Runs the two calls of `dimacs` over texts, and prints what each call answers.
#![tactic(auto)]

mod telling;
mod tries;

use std::io;

fn main(rt: HostRuntime) -> io::Result<()> {
    tries::run(&rt)
}
