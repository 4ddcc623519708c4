// Books that the code names, where all else is generic in its book: the checker has to make a type of each.
use crate::rolls::row;
use balance::{
    Figures, QuarterHour, adjusted_loads, balance_of, generation_and_ufe, rtaml, shares,
};
use book::LoadBook;
use grid::Grid;
use losses::{Distribution, Transmission};
use refusal::Refusal;
use roll::Draft;
use slips::{Slip, SlipBook};
use std::process::Abort;
use std::test::Fail;

/// One segment with loss code A, and one site.
fn draft() -> Result<Draft, Refusal> {
    let mut draft = Draft::begin(96)?;
    draft.segment(0, &row([1, 0, b'A', 1, 0]))?;
    draft.site(0)?;
    Ok(draft)
}

/// 1,100 Wh are generated.
fn figures() -> Result<Figures, Refusal> {
    let mut figures = Figures::none();
    figures.enter(0, 0, 1_100)?;
    Ok(figures)
}

#[test]
fn a_quarter_hour_on_a_grid(rt: HostRuntime) -> Result<(), Fail> {
    let (draft, figures) = (draft()?, figures()?);
    let mut cells = [0; 6_400];
    let mut book = Grid::new(&mut cells);
    book.post(0, 0, 1_000)?;
    let quarter = QuarterHour {
        roll: draft.roll(),
        book: &book,
        figures: &figures,
        quarter_hour: 0,
    };
    assert_eq!(rt; quarter.generation_and_ufe()?.ufe, 100i64);
    Ok(())
}

#[test]
fn a_grid_under_distribution(rt: HostRuntime) -> Result<(), Fail> {
    let (draft, figures) = (draft()?, figures()?);
    let mut cells = [0; 6_400];
    let mut book = Distribution::over(Grid::new(&mut cells));
    book.take_over_codes(draft.roll());
    book.set_factor(b'A', 0, 50_000)?;
    book.post(0, 0, 1_000)?;
    assert_eq!(rt; book.load(0, 0)?, 1_050u32);
    assert_eq!(rt; balance_of(draft.roll(), &book, &figures, 0)?.ufe(), 50i64);
    assert_eq!(rt; rtaml(draft.roll(), &book, &figures, 0, 1, 0)?, 1_100i64);
    Ok(())
}

#[test]
fn a_slip_book_under_transmission(rt: HostRuntime) -> Result<(), Fail> {
    let (draft, figures) = (draft()?, figures()?);
    let mut slips = [Slip::default(); 1];
    let mut book = Transmission::over(SlipBook::new(&mut slips));
    book.set_factor(0, 20_000)?;
    book.post(0, 0, 1_000)?;
    assert_eq!(rt; book.load(0, 0)?, 1_020u32);
    assert_eq!(rt;
        generation_and_ufe(draft.roll(), &book, &figures, 0)?.ufe,
        80i64
    );
    Ok(())
}

#[test]
fn a_slip_book_under_distribution(rt: HostRuntime) -> Result<(), Fail> {
    let (draft, figures) = (draft()?, figures()?);
    let mut slips = [Slip::default(); 1];
    let mut book = Distribution::over(SlipBook::new(&mut slips));
    book.take_over_codes(draft.roll());
    book.set_factor(b'A', 0, 50_000)?;
    book.post(0, 0, 1_000)?;
    let mut loads = [7i64; 64];
    adjusted_loads(draft.roll(), &book, &figures, 0, &mut loads)?;
    assert!(rt; &loads[..2] == &[1_100i64, 0][..]);
    let mut list = [7i64; 16];
    shares(draft.roll(), &book, &figures, 0, &mut list)?;
    assert!(rt; &list[..2] == &[0i64, 1_000_000_000][..]);
    Ok(())
}
