// A quarter hour of four segments and two sites, through a pile of both loss adjustments.
use crate::shared::{DISTRIBUTION, HOUSEHOLD, NOON, TRANSMISSION};
use balance::{Figures, QuarterHour, Ufe};
use book::LoadBook;
use grid::Grid;
use losses::{Distribution, Transmission};
use refusal::Refusal;
use roll::{Draft, Roll, Row};

// The rows, the figures and the losses stand in the programs of the four segments and of the lively day too: each is
// read by itself.
const WORKSHOP: Row = Row {
    qse: 2,
    point: 0,
    code: b'B',
    meter: 0,
    noie: 0,
};

const MILL: Row = Row {
    qse: 1,
    point: 1,
    code: b'T',
    meter: 0,
    noie: 0,
};

const TOWN: Row = Row {
    qse: 3,
    point: 1,
    code: b'T',
    meter: 0,
    noie: 1,
};

/// An amount for each of the four segments, in Wh.
#[derive(Clone, Copy)]
pub struct Loads {
    pub household: u32,
    pub workshop: u32,
    pub mill: u32,
    pub town: u32,
}

/// RTAML of each QSE at each settlement point where it has a segment, in Wh.
#[derive(Clone, Copy)]
pub struct Rtaml {
    pub one_at_0: i64,
    pub one_at_1: i64,
    pub two_at_0: i64,
    pub three_at_1: i64,
}

/// What is told of the quarter hour.
#[derive(Clone, Copy)]
pub struct Settled {
    /// The loads under the pile.
    pub loads: Loads,
    pub energy: Ufe,
    /// The adjusted load of each segment.
    pub adjusted: [i64; 64],
    pub rtaml: Rtaml,
    /// The share of each QSE, in billionths.
    pub shares: [i64; 16],
}

/// The readings.
pub const READINGS: Loads = Loads {
    household: 1_000,
    workshop: 2_000,
    mill: 3_000,
    town: 4_000,
};

/// What site 0 sent out, and what site 1 took in, in Wh.
pub const SENT_OUT: i32 = 11_000;

pub const TAKEN_IN: i32 = 300;

fn draft() -> Result<Draft, Refusal> {
    let mut draft = Draft::begin(96)?;
    draft.segment(0, &HOUSEHOLD)?;
    draft.segment(1, &WORKSHOP)?;
    draft.segment(2, &MILL)?;
    draft.segment(3, &TOWN)?;
    draft.site(0)?;
    draft.site(1)?;
    Ok(draft)
}

fn post_readings<B: LoadBook>(book: &mut B) -> Result<(), Refusal> {
    book.post(0, NOON, READINGS.household)?;
    book.post(1, NOON, READINGS.workshop)?;
    book.post(2, NOON, READINGS.mill)?;
    book.post(3, NOON, READINGS.town)?;
    Ok(())
}

fn figures() -> Result<Figures, Refusal> {
    let mut figures = Figures::none();
    figures.enter(0, NOON, SENT_OUT)?;
    figures.enter(1, NOON, -TAKEN_IN)?;
    Ok(figures)
}

// Loads are asked of the book, and RTAML of the quarter hour: each list has names of its own.
fn ask_loads<B: LoadBook>(book: &B) -> Result<Loads, Refusal> {
    Ok(Loads {
        household: book.load(0, NOON)?,
        workshop: book.load(1, NOON)?,
        mill: book.load(2, NOON)?,
        town: book.load(3, NOON)?,
    })
}

fn ask_rtaml<B: LoadBook>(noon: &QuarterHour<B>) -> Result<Rtaml, Refusal> {
    Ok(Rtaml {
        one_at_0: noon.rtaml(1, 0)?,
        one_at_1: noon.rtaml(1, 1)?,
        two_at_0: noon.rtaml(2, 0)?,
        three_at_1: noon.rtaml(3, 1)?,
    })
}

/// Asks for all the answers of the quarter hour.
fn settle<B: LoadBook>(noon: &QuarterHour<B>) -> Result<Settled, Refusal> {
    let mut adjusted = [0; 64];
    noon.adjusted_loads(&mut adjusted)?;
    let mut shares = [0; 16];
    noon.shares(&mut shares)?;
    Ok(Settled {
        loads: ask_loads(noon.book)?,
        energy: noon.generation_and_ufe()?,
        adjusted,
        rtaml: ask_rtaml(noon)?,
        shares,
    })
}

/// Lays transmission over distribution over a book, and settles.
fn settle_under_losses<B: LoadBook + Drop>(
    roll: &Roll,
    book: B,
    figures: &Figures,
) -> Result<Settled, Refusal> {
    let mut distribution = Distribution::over(book);
    distribution.take_over_codes(roll);
    distribution.set_factor(b'A', NOON, DISTRIBUTION)?;
    distribution.set_factor(b'B', NOON, 25_000)?;
    let mut transmission = Transmission::over(distribution);
    transmission.set_factor(NOON, TRANSMISSION)?;
    settle(&QuarterHour {
        roll,
        book: &transmission,
        figures,
        quarter_hour: NOON,
    })
}

pub fn work_out() -> Result<Settled, Refusal> {
    let draft = draft()?;
    let figures = figures()?;
    let mut cells = [0; 6_400];
    let mut grid = Grid::new(&mut cells);
    post_readings(&mut grid)?;
    settle_under_losses(draft.roll(), grid, &figures)
}
