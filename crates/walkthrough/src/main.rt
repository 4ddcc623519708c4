// What the box does, told in words. Each part takes one case through it, from the entry to the
// last figure.
#![tactic(auto)]

mod figures;
mod month;
mod pile;
mod quarter_hour;
mod shared;
mod telling;

use std::io;

fn main(rt: HostRuntime) -> io::Result<()> {
    month::show(&rt)?;
    println!(rt; "")?;
    println!(rt; "")?;
    pile::show(&rt)?;
    println!(rt; "")?;
    println!(rt; "")?;
    quarter_hour::show(&rt)
}
