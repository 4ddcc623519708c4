// What the box does with what people enter: a day of four segments, the limits, a book that is full, and
// lively days on several books, in words.
#![tactic(auto)]

mod books;
mod calls;
mod four;
mod limits;
mod told_day;

use std::io;

fn main(rt: HostRuntime) -> io::Result<()> {
    four::show(&rt)?;
    limits::show(&rt)?;
    books::show(&rt)
}
