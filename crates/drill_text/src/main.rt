// Runs the three calls of `text` over formulae in plain text, and prints what each call answers.
#![tactic(auto)]

mod telling;
mod texts;
mod written;

use std::io;

fn main(rt: HostRuntime) -> io::Result<()> {
    texts::run(&rt)?;
    written::run(&rt)
}
