// The reading-in desk: each line that is typed is one call of the box, and gets one line of answer.
#![tactic(auto)]

mod desk;
mod field;
mod input;
mod line;
mod number;
mod order;
mod place;
mod reply;
mod setup;
mod words;

use crate::desk::Desk;
use crate::input::Lines;
use crate::setup::Bottom;
use grid::Grid;
use slips::{Slip, SlipBook};
use std::io;

/// The first records of a list, as many as there are.
fn first(slips: &mut [Slip], records: usize) -> &mut [Slip] {
    let count = records.min(slips.len());
    &mut slips[..count]
}

fn main(rt: HostRuntime) -> io::Result<()> {
    let mut desk = Desk::new(&rt, Lines::new(rt.stdin()));
    let mut cells = [0u32; 6_400];
    let mut slips = [Slip::default(); 6_400];
    let mut begun = desk.wait()?;
    // a loop is proved to end, and no input begins as many days
    for _ in 0..u64::MAX {
        let Some(setup) = begun else {
            return Ok(());
        };
        let Some(setup) = desk.draft(setup)? else {
            return Ok(());
        };
        begun = match setup.bottom {
            Bottom::Grid => desk.open(setup, Grid::new(&mut cells))?,
            Bottom::Slips { records } => {
                let book = SlipBook::new(first(&mut slips, records));
                desk.open(setup, book)?
            }
        };
    }
    Ok(())
}
