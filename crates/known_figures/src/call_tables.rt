// Tables of calls of a load book, each with its whole answer: what was read, or the number, the subject
// and the height of the refusal. They are run on a grid, on slip books, and under a pile of layers.
use crate::answers::numbers;
use crate::slip_books::OLD;
use book::LoadBook;
use grid::Grid;
use losses::{Distribution, Transmission};
use refusal::Refusal;
use slips::SlipBook;
use std::process::Abort;

#[derive(Clone, Copy)]
enum Call {
    /// Segment, quarter hour, reading.
    Post(u8, u8, u32),
    Withdraw(u8, u8),
    Read(u8, u8),
    Load(u8, u8),
    Free,
    Clear,
}

/// A number or none, or a refusal's number, subject and height.
type Answer = Result<Option<u32>, [u8; 3]>;

/// A call of a book, and its answer.
type Step = (Call, Answer);

/// Where nothing stands.
const EMPTY: [Step; 18] = [
    (Call::Read(0, 0), Ok(None)),
    (Call::Withdraw(0, 0), Err([16, 0, 0])),
    (Call::Load(0, 0), Err([18, 0, 0])),
    (Call::Read(0, 64), Ok(None)),
    (Call::Withdraw(0, 64), Err([16, 0, 0])),
    (Call::Load(0, 64), Err([18, 0, 0])),
    (Call::Read(63, 99), Ok(None)),
    (Call::Withdraw(63, 99), Err([16, 0, 0])),
    (Call::Load(63, 99), Err([18, 63, 0])),
    (Call::Read(64, 99), Err([1, 0, 0])),
    (Call::Withdraw(64, 99), Err([1, 0, 0])),
    (Call::Load(64, 99), Err([1, 0, 0])),
    (Call::Read(63, 100), Err([2, 0, 0])),
    (Call::Withdraw(63, 100), Err([2, 0, 0])),
    (Call::Load(63, 100), Err([2, 0, 0])),
    (Call::Read(64, 100), Err([1, 0, 0])),
    (Call::Withdraw(64, 100), Err([1, 0, 0])),
    (Call::Load(64, 100), Err([1, 0, 0])),
];

/// Where nothing stands and there is a place left: every range, and the order in which they are
/// looked at. Nothing stands after it.
const RANGES: [Step; 10] = [
    (Call::Post(63, 99, 1_000_000), Ok(None)),
    (Call::Post(63, 99, 1_000_001), Err([3, 0, 0])),
    (Call::Post(64, 99, 0), Err([1, 0, 0])),
    (Call::Post(255, 255, u32::MAX), Err([1, 0, 0])),
    (Call::Post(64, 100, 1_000_001), Err([1, 0, 0])),
    (Call::Post(63, 100, 0), Err([2, 0, 0])),
    (Call::Post(63, 100, 1_000_001), Err([2, 0, 0])),
    (Call::Post(0, 0, u32::MAX), Err([3, 0, 0])),
    (Call::Read(63, 99), Ok(Some(1_000_000))),
    (Call::Withdraw(63, 99), Ok(Some(1_000_000))),
];

/// With one place left: a reading, its correction, its withdrawal, and another cell's reading.
const LAST_PLACE: [Step; 8] = [
    (Call::Free, Ok(Some(1))),
    (Call::Post(0, 0, 1_000), Ok(None)),
    (Call::Post(1, 0, 500), Err([15, 0, 0])),
    (Call::Post(1, 0, 1_000_001), Err([3, 0, 0])),
    (Call::Post(0, 0, 1_200), Ok(Some(1_000))),
    (Call::Withdraw(0, 0), Ok(Some(1_200))),
    (Call::Post(1, 0, 500), Ok(None)),
    (Call::Free, Ok(Some(0))),
];

const NO_PLACE: [Step; 6] = [
    (Call::Free, Ok(Some(0))),
    (Call::Post(64, 0, 1), Err([1, 0, 0])),
    (Call::Post(0, 0, 1), Err([15, 0, 0])),
    (Call::Free, Ok(Some(0))),
    (Call::Clear, Ok(None)),
    (Call::Free, Ok(Some(0))),
];

/// With a place for each cell. Nothing stands after it.
const ALL_PLACES: [Step; 6] = [
    (Call::Free, Ok(Some(6_400))),
    (Call::Post(64, 0, 1), Err([1, 0, 0])),
    (Call::Post(0, 0, 1), Ok(None)),
    (Call::Free, Ok(Some(6_399))),
    (Call::Clear, Ok(None)),
    (Call::Free, Ok(Some(6_400))),
];

fn ask<B: LoadBook>(book: &mut B, call: Call) -> Result<Option<u32>, Refusal> {
    match call {
        Call::Post(segment, quarter_hour, reading) => book.post(segment, quarter_hour, reading),
        Call::Withdraw(segment, quarter_hour) => Ok(Some(book.withdraw(segment, quarter_hour)?)),
        Call::Read(segment, quarter_hour) => book.read(segment, quarter_hour),
        Call::Load(segment, quarter_hour) => Ok(Some(book.load(segment, quarter_hour)?)),
        Call::Free => Ok(Some(book.free())),
        Call::Clear => {
            book.clear();
            Ok(None)
        }
    }
}

/// A refusal under so many layers, through which the want of a reading comes up.
fn raised([number, subject, height]: [u8; 3], layers: u8) -> [u8; 3] {
    let above = if number == 18 { layers } else { 0 };
    [number, subject, height.saturating_add(above)]
}

/// Makes the calls on a book with so many layers over it.
fn run_under<B: LoadBook>(rt: &impl Abort, book: &mut B, layers: u8, steps: &[Step]) {
    for (call, expected) in steps {
        let answer = ask(book, *call).map_err(|refusal| numbers(&refusal));
        assert_eq!(rt; answer, expected.map_err(|refusal| raised(refusal, layers)));
    }
}

fn run<B: LoadBook>(rt: &impl Abort, book: &mut B, steps: &[Step]) {
    run_under(rt, book, 0, steps);
}

/// A book in which nothing stands, with so many layers over it.
pub fn check_empty<B: LoadBook>(rt: &impl Abort, book: &mut B, layers: u8) {
    run_under(rt, book, layers, &EMPTY);
}

/// Every range, for a book in which nothing stands, with a place left.
pub fn check_ranges<B: LoadBook>(rt: &impl Abort, book: &mut B, layers: u8) {
    check_empty(rt, book, layers);
    run(rt, book, &RANGES);
    check_empty(rt, book, layers);
}

/// A book of one place, in which nothing stands: every range, and then the last place.
pub fn check_one_place<B: LoadBook>(rt: &impl Abort, book: &mut B, layers: u8) {
    check_ranges(rt, book, layers);
    run(rt, book, &LAST_PLACE);
}

#[test]
fn on_a_grid(rt: HostRuntime) {
    let mut list = [7u32; 6_400];
    let mut grid = Grid::new(&mut list);
    run(&rt, &mut grid, &ALL_PLACES);
    check_ranges(&rt, &mut grid, 0);
}

#[test]
fn on_one_place(rt: HostRuntime) {
    check_one_place(&rt, &mut SlipBook::new(&mut [OLD]), 0);
}

#[test]
fn on_no_place(rt: HostRuntime) {
    run(&rt, &mut Grid::new(&mut [7u32; 6_399]), &NO_PLACE);
    run(&rt, &mut SlipBook::new(&mut [OLD; 0]), &NO_PLACE);
}

fn check_two_more<B: LoadBook + Drop>(rt: &impl Abort, pile: B) {
    check_one_place(rt, &mut Transmission::over(Distribution::over(pile)), 5);
}

fn check_four_more<B: LoadBook + Drop>(rt: &impl Abort, pile: B) {
    check_two_more(rt, Transmission::over(Distribution::over(pile)));
}

/// Nothing was posted or cleared before the layers were laid over the list that was lent.
#[test]
fn under_five_layers(rt: HostRuntime) {
    check_four_more(&rt, Distribution::over(SlipBook::new(&mut [OLD])));
}
