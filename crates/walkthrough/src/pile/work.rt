// What a pile of loss adjustments makes of a reading, layer by layer.
ghost use Rattle.std.specs.Prelude.{◌≡◌, IfOk, Ok, OnOk};
ghost use Rattle.roll.specs.Drafts.{roll_of};
ghost use Rattle.roll.specs.Entries.{rows_of};
ghost use Rattle.book.specs.Cells.{nothing};
ghost use Rattle.walkthrough.specs.Piles.{two_rows, with_readings, climb_of, under_one, plain, known};

use crate::shared::{DISTRIBUTION, HOUSEHOLD, NOON, TRANSMISSION};
use book::LoadBook;
use grid::Grid;
use losses::{Distribution, Transmission};
use refusal::Refusal;
use roll::{Draft, Roll, Row};
use slips::{Slip, SlipBook};

const MILL: Row = Row {
    qse: 2,
    point: 3,
    code: b'T',
    meter: 0,
    noie: 0,
};

/// The answers for one cell as the pile grows: of the book alone, with distribution over it, and
/// with transmission over both.
#[derive(Clone, Copy)]
pub struct Climb {
    pub metered: Result<u32, Refusal>,
    pub distributed: Result<u32, Refusal>,
    pub transmitted: Result<u32, Refusal>,
}

/// What is told of the pile.
#[derive(Clone, Copy)]
pub struct Climbs {
    pub household: Climb,
    pub mill: Climb,
    /// Segment 5, for which nothing is posted.
    pub unread: Climb,
    /// The household a quarter hour later, where there is no factor.
    pub unrated: Climb,
    /// The household under one layer with both factors in one.
    pub at_once: u32,
}

/// A day with a household, segment 0, and a mill, segment 2.
fn draft() -> Result<Draft, Refusal>
    ensures { IfOk result (λ d. rows_of (roll_of d) ≡ two_rows) }
{
    let mut draft = Draft::begin(96)?;
    draft.segment(0, &HOUSEHOLD)?;
    draft.segment(2, &MILL)?;
    Ok(draft)
}

fn post_readings<B: LoadBook>(book: &mut B) -> Result<(), Refusal>
    ensures standing { OnOk result (B.LoadBook.standing book.new ≡ with_readings (B.LoadBook.standing book.old)) }
    ensures grossing { B.LoadBook.grossing book.new ≡ B.LoadBook.grossing book.old }
{
    book.post(0, NOON, 1_000)?;
    book.post(2, NOON, 3_000)?;
    book.post(0, NOON + 1, 900)?;
    Ok(())
}

/// Builds the pile over a book, and asks for a cell's load under each layer and at the top.
fn climb_from<B: LoadBook + Drop>(
    book: B,
    roll: &Roll,
    segment: u8,
    quarter_hour: u8,
) -> Result<Climb, Refusal>
    ensures { result ≡ Ok (climb_of (rows_of roll.now) (B.LoadBook.grossing book) (B.LoadBook.standing book) segment quarter_hour) }
{
    let metered = book.load(segment, quarter_hour);
    let mut distribution = Distribution::over(book);
    distribution.take_over_codes(roll);
    distribution.set_factor(b'A', NOON, DISTRIBUTION)?;
    let distributed = distribution.load(segment, quarter_hour);
    let mut transmission = Transmission::over(distribution);
    transmission.set_factor(NOON, TRANSMISSION)?;
    let transmitted = transmission.load(segment, quarter_hour);
    Ok(Climb {
        metered,
        distributed,
        transmitted,
    })
}

/// A segment's load at noon under one layer.
fn under_one_layer<B: LoadBook + Drop>(book: B, segment: u8, factor: u32) -> Result<u32, Refusal>
    ensures { result ≡ under_one (B.LoadBook.grossing book) (B.LoadBook.standing book) segment factor }
{
    let mut layer = Transmission::over(book);
    layer.set_factor(NOON, factor)?;
    layer.load(segment, NOON)
}

/// A cell's climb from a grid that has the readings.
fn climb_from_grid(roll: &Roll, segment: u8, quarter_hour: u8) -> Result<Climb, Refusal>
    ensures { IfOk result (λ x. x ≡ climb_of (rows_of roll.now) plain (with_readings nothing) segment quarter_hour) }
{
    let mut cells = [0; 6_400];
    let mut grid = Grid::new(&mut cells);
    post_readings(&mut grid)?;
    climb_from(grid, roll, segment, quarter_hour)
}

/// The household's load from a slip book that has the readings, under one layer.
fn at_once_from_slips() -> Result<u32, Refusal>
    ensures { IfOk result (λ x. Ok x ≡ under_one plain (with_readings nothing) 0 70000) }
{
    let mut slips = [Slip::default(); 3];
    let mut book = SlipBook::new(&mut slips);
    post_readings(&mut book)?;
    under_one_layer(book, 0, DISTRIBUTION + TRANSMISSION)
}

pub fn work_out() -> Result<Climbs, Refusal>
    ensures { IfOk result (λ x. x ≡ known) }
{
    let draft = draft()?;
    let roll = draft.roll();
    let at_once = at_once_from_slips()?;
    Ok(Climbs {
        household: climb_from_grid(roll, 0, NOON)?,
        mill: climb_from_grid(roll, 2, NOON)?,
        unread: climb_from_grid(roll, 5, NOON)?,
        unrated: climb_from_grid(roll, 0, NOON + 1)?,
        at_once,
    })
}
