// The books that the days are on: a grid under both loss adjustments, and a slip book.
use crate::told_day;
use crate::told_day::Stop;
use book::LoadBook;
use grid::Grid;
use losses::{Distribution, Transmission};
use refusal::Refusal;
use roll::Draft;
use slips::{Slip, SlipBook};
use std::io;

// The layers stand in the programs of the four segments and of the walk too: each is read by itself.
/// Transmission over distribution over a book, with factors for one quarter hour.
pub fn under_losses<B: LoadBook + Drop>(
    book: B,
    draft: &Draft,
    quarter_hour: u8,
) -> Result<Transmission<Distribution<B>>, Refusal> {
    let mut distribution = Distribution::over(book);
    distribution.take_over_codes(draft.roll());
    distribution.set_factor(b'A', quarter_hour, 50_000)?;
    distribution.set_factor(b'B', quarter_hour, 25_000)?;
    let mut transmission = Transmission::over(distribution);
    transmission.set_factor(quarter_hour, 20_000)?;
    Ok(transmission)
}

fn live_under_losses<B: LoadBook + Drop>(
    rt: &HostRuntime,
    quarter_hours: u8,
    book: B,
) -> Result<(), Stop> {
    let draft = told_day::draft(quarter_hours)?;
    match under_losses(book, &draft, quarter_hours.saturating_sub(1)) {
        Ok(pile) => told_day::live(rt, draft, pile),
        Err(refusal) => Err(Stop::Refused(refusal)),
    }
}

fn live_alone<B: LoadBook + Drop>(
    rt: &HostRuntime,
    quarter_hours: u8,
    book: B,
) -> Result<(), Stop> {
    told_day::live(rt, told_day::draft(quarter_hours)?, book)
}

fn on_a_grid(rt: &HostRuntime, quarter_hours: u8) -> io::Result<()> {
    println!(rt; "")?;
    println!(rt;
        "A lively day of {quarter_hours} quarter hours, on a grid under both loss adjustments"
    )?;
    let mut cells = [0; 6_400];
    told_day::end(
        rt,
        live_under_losses(rt, quarter_hours, Grid::new(&mut cells)),
    )
}

/// Three places only, which is fewer than the day asks for.
fn on_few_slips(rt: &HostRuntime, quarter_hours: u8) -> io::Result<()> {
    println!(rt; "")?;
    println!(rt; "A lively day of {quarter_hours} quarter hours, on a slip book of 3 places")?;
    let mut slips = [Slip::default(); 3];
    told_day::end(rt, live_alone(rt, quarter_hours, SlipBook::new(&mut slips)))
}

pub fn show(rt: &HostRuntime) -> io::Result<()> {
    on_a_grid(rt, 96)?;
    on_a_grid(rt, 100)?;
    on_few_slips(rt, 92)
}
