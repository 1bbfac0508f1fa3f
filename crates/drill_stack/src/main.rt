// Runs the calls of `stack` over boards and records, and prints what each call answers; then what is told while a reading is tried and when it is
// taken back.
#![tactic(auto)]

mod beyond;
mod circle;
mod desks;
mod full;
mod given;
mod most;
mod nested;
mod opening;
mod printed;
mod spoilt;
mod telling;
mod tries;
mod turns;

use std::io;

fn main(rt: HostRuntime) -> io::Result<()> {
    opening::run(&rt)?;
    given::run(&rt)?;
    spoilt::run(&rt)?;
    beyond::run(&rt)?;
    nested::run(&rt)?;
    turns::run(&rt)?;
    circle::run(&rt)?;
    full::run(&rt)?;
    most::run(&rt)
}
