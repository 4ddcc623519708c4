// Loads that come up through piles of layers. Each function lays one or two layers over the book that
// it is given, and hands the pile on. Factors are given for quarter hour 0.
use crate::answers::{number_of, numbers_of};
use crate::call_tables::check_one_place;
use crate::rolls::row as row_of;
use book::LoadBook;
use losses::{Distribution, Transmission};
use refusal::Refusal;
use roll::{Draft, Roll, Row};
use slips::{Slip, SlipBook};
use std::process::Abort;
use std::test::Fail;

#[derive(Clone, Copy)]
enum Kind {
    Distribution,
    Transmission,
}

/// The lower and the upper layer.
const PILES: [(Kind, Kind); 4] = [
    (Kind::Distribution, Kind::Transmission),
    (Kind::Transmission, Kind::Distribution),
    (Kind::Distribution, Kind::Distribution),
    (Kind::Transmission, Kind::Transmission),
];

/// The lower and the upper factor, a reading, the load.
#[derive(Clone, Copy)]
struct Case(u32, u32, u32, u32);

const CASES: [Case; 7] = [
    Case(50_000, 0, 10, 11),
    Case(50_000, 20_000, 1_000, 1_071),
    Case(20_000, 50_000, 1_000, 1_071),
    Case(50_000, 20_000, 24, 26),
    Case(20_000, 50_000, 24, 25),
    Case(500_000, 500_000, 1_000_000, 2_250_000),
    Case(500_000, 500_000, 0, 0),
];

fn row(code: u8) -> Row {
    row_of([1, 0, code, 0, 0])
}

/// Segment 0 with code A, and segment 2 with code T.
fn two_segments() -> Result<Draft, Refusal> {
    let mut draft = Draft::begin(96)?;
    draft.segment(0, &row(b'A'))?;
    draft.segment(2, &row(b'T'))?;
    Ok(draft)
}

fn distribution<B: LoadBook + Drop>(
    book: B,
    roll: &Roll,
    factor: u32,
) -> Result<Distribution<B>, Refusal> {
    let mut layer = Distribution::over(book);
    layer.take_over_codes(roll);
    layer.set_factor(b'A', 0, factor)?;
    Ok(layer)
}

fn transmission<B: LoadBook + Drop>(book: B, factor: u32) -> Result<Transmission<B>, Refusal> {
    let mut layer = Transmission::over(book);
    layer.set_factor(0, factor)?;
    Ok(layer)
}

/// A reading is posted at the top.
fn check_load<B: LoadBook + Drop>(
    rt: &impl Abort,
    mut pile: B,
    reading: u32,
    expected: u32,
) -> Result<(), Fail> {
    pile.post(0, 0, reading)?;
    assert_eq!(rt; pile.load(0, 0)?, expected);
    Ok(())
}

fn check_upper<B: LoadBook + Drop>(
    rt: &impl Abort,
    below: B,
    roll: &Roll,
    kind: Kind,
    Case(_, upper, reading, expected): Case,
) -> Result<(), Fail> {
    match kind {
        Kind::Distribution => check_load(rt, distribution(below, roll, upper)?, reading, expected),
        Kind::Transmission => check_load(rt, transmission(below, upper)?, reading, expected),
    }
}

fn check_pile<B: LoadBook + Drop>(
    rt: &impl Abort,
    book: B,
    roll: &Roll,
    (lower, upper): (Kind, Kind),
    case: Case,
) -> Result<(), Fail> {
    match lower {
        Kind::Distribution => check_upper(rt, distribution(book, roll, case.0)?, roll, upper, case),
        Kind::Transmission => check_upper(rt, transmission(book, case.0)?, roll, upper, case),
    }
}

#[test]
fn two_layers_in_every_order(rt: HostRuntime) -> Result<(), Fail> {
    let draft = two_segments()?;
    for kinds in PILES {
        for case in CASES {
            let mut list = [Slip::default()];
            check_pile(&rt, SlipBook::new(&mut list), draft.roll(), kinds, case)?;
        }
    }
    Ok(())
}

/// A fault for segment 5 that came up through one layer, and the same fault through one more.
fn check_higher<B: LoadBook + Drop>(rt: &impl Abort, pile: B, number: u8) {
    assert_eq!(rt; numbers_of(pile.load(5, 0)), [number, 5, 1]);
    let higher = Distribution::over(pile);
    assert_eq!(rt; numbers_of(higher.load(5, 0)), [number, 5, 2]);
}

/// A fault for segment 5 that arises at the top, and goes up through layers without factors.
fn check_rising<B: LoadBook + Drop>(rt: &impl Abort, pile: B, number: u8) {
    assert_eq!(rt; numbers_of(pile.load(5, 0)), [number, 5, 0]);
    check_higher(rt, Transmission::over(pile), number);
}

fn check_no_factor<B: LoadBook + Drop>(rt: &impl Abort, mut book: B) -> Result<(), Fail> {
    book.post(5, 0, 1_000)?;
    check_rising(rt, Transmission::over(book), 19);
    Ok(())
}

fn check_fourth_half<B: LoadBook + Drop>(rt: &impl Abort, pile: B) -> Result<(), Fail> {
    assert_eq!(rt; pile.load(5, 0)?, 3_375_000);
    check_rising(rt, transmission(pile, 500_000)?, 20);
    Ok(())
}

fn check_third_half<B: LoadBook + Drop>(rt: &impl Abort, pile: B) -> Result<(), Fail> {
    assert_eq!(rt; pile.load(5, 0)?, 2_250_000);
    check_fourth_half(rt, transmission(pile, 500_000)?)
}

/// Layers that each add a half, until there is more than a load may be.
fn check_too_large<B: LoadBook + Drop>(rt: &impl Abort, mut book: B) -> Result<(), Fail> {
    book.post(5, 0, 1_000_000)?;
    check_third_half(rt, transmission(transmission(book, 500_000)?, 500_000)?)
}

#[test]
fn heights(rt: HostRuntime) -> Result<(), Fail> {
    check_rising(&rt, SlipBook::new(&mut [Slip::default()]), 18);
    check_no_factor(&rt, SlipBook::new(&mut [Slip::default()]))?;
    check_too_large(&rt, SlipBook::new(&mut [Slip::default()]))
}

/// A pile over a book of one place, which has a reading for segment 5.
fn check_calls<B: LoadBook>(rt: &impl Abort, pile: &mut B) -> Result<(), Fail> {
    assert_eq!(rt; pile.read(5, 0)?, Some(7));
    assert_eq!(rt; pile.free(), 0);
    pile.clear();
    check_one_place(rt, pile, 5);
    Ok(())
}

fn check_two_more<B: LoadBook + Drop>(rt: &impl Abort, pile: B) -> Result<(), Fail> {
    check_calls(rt, &mut Transmission::over(Distribution::over(pile)))
}

fn check_four_more<B: LoadBook + Drop>(rt: &impl Abort, pile: B) -> Result<(), Fail> {
    check_two_more(rt, Transmission::over(Distribution::over(pile)))
}

/// The reading was posted before the first of five layers was laid over the book.
fn check_five_layers<B: LoadBook + Drop>(rt: &impl Abort, mut book: B) -> Result<(), Fail> {
    book.post(5, 0, 7)?;
    check_four_more(rt, Distribution::over(book))
}

#[test]
fn calls_reach_the_book(rt: HostRuntime) -> Result<(), Fail> {
    check_five_layers(&rt, SlipBook::new(&mut [Slip::default()]))
}

/// Of the factors given the last counts, and a refused one does not.
fn check_last_factor<B: LoadBook + Drop>(
    rt: &impl Abort,
    book: B,
    roll: &Roll,
) -> Result<(), Fail> {
    let mut layer = distribution(book, roll, 10_000)?;
    layer.set_factor(b'A', 0, 50_000)?;
    assert_eq!(rt; number_of(layer.set_factor(b'A', 0, 500_001)), 8);
    check_load(rt, layer, 1_000, 1_050)
}

/// A load of code T passes as it is, without a factor too; one of code A does not.
fn check_codes<B: LoadBook + Drop>(rt: &impl Abort, mut book: B, roll: &Roll) -> Result<(), Fail> {
    book.post(0, 1, 1_000)?;
    book.post(2, 1, 3_000)?;
    let mut layer = Distribution::over(book);
    assert_eq!(rt; numbers_of(layer.load(2, 1)), [19, 2, 0]);
    layer.take_over_codes(roll);
    assert_eq!(rt; numbers_of(layer.load(0, 1)), [19, 0, 0]);
    assert_eq!(rt; layer.load(2, 1)?, 3_000);
    Ok(())
}

/// A segment that comes onto the roll after the codes were taken over.
fn check_late_code<B: LoadBook + Drop>(
    rt: &impl Abort,
    mut book: B,
    mut draft: Draft,
) -> Result<(), Fail> {
    book.post(1, 0, 10)?;
    let mut layer = distribution(book, draft.roll(), 50_000)?;
    draft.segment(1, &row(b'A'))?;
    assert_eq!(rt; numbers_of(layer.load(1, 0)), [19, 1, 0]);
    layer.take_over_codes(draft.roll());
    assert_eq!(rt; layer.load(1, 0)?, 11);
    Ok(())
}

#[test]
fn factors_and_codes(rt: HostRuntime) -> Result<(), Fail> {
    let draft = two_segments()?;
    check_last_factor(&rt, SlipBook::new(&mut [Slip::default()]), draft.roll())?;
    check_codes(&rt, SlipBook::new(&mut [Slip::default(); 2]), draft.roll())?;
    check_late_code(&rt, SlipBook::new(&mut [Slip::default()]), draft)
}
