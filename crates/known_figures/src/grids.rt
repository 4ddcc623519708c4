// Grids over lists of every length, and a full one.
use crate::answers::number_of;
use crate::call_tables::{check_empty, check_ranges};
use book::LoadBook;
use grid::Grid;
use std::process::Abort;
use std::test::Fail;

/// The length of a list, the places of a grid over it, the answer to a posting.
const LENGTHS: [(usize, u32, u8); 4] = [
    (0, 0, 15),
    (6_399, 0, 15),
    (6_400, 6_400, 0),
    (6_401, 0, 15),
];

#[test]
fn lists_of_every_length(rt: HostRuntime) {
    for (length, places, expected) in LENGTHS {
        let mut list = [7u32; 6_401];
        assert!(rt; length <= 6_401);
        let mut grid = Grid::new(&mut list[0..length]);
        assert_eq!(rt; grid.free(), places);
        assert_eq!(rt; number_of(grid.post(64, 0, 1)), 1);
        assert_eq!(rt; number_of(grid.post(0, 0, 1)), expected);
        assert_eq!(rt; grid.free(), places.saturating_sub(1));
        grid.clear();
        assert_eq!(rt; grid.free(), places);
        check_empty(&rt, &mut grid, 0);
    }
}

#[test]
fn ranges(rt: HostRuntime) {
    let mut list = [7u32; 6_400];
    check_ranges(&rt, &mut Grid::new(&mut list), 0);
}

/// Posts a reading of its own for every cell.
fn fill<B: LoadBook>(rt: &impl Abort, book: &mut B) -> Result<(), Fail> {
    for segment in 0..64u8 {
        for quarter_hour in 0..100u8 {
            let reading = u32::from(segment) * 100 + u32::from(quarter_hour);
            assert_eq!(rt; book.post(segment, quarter_hour, reading)?, None);
        }
    }
    Ok(())
}

fn check_filled<B: LoadBook>(rt: &impl Abort, book: &B) -> Result<(), Fail> {
    for segment in 0..64u8 {
        for quarter_hour in 0..100u8 {
            let reading = u32::from(segment) * 100 + u32::from(quarter_hour);
            assert_eq!(rt; book.load(segment, quarter_hour)?, reading);
        }
    }
    Ok(())
}

#[test]
fn full(rt: HostRuntime) -> Result<(), Fail> {
    let mut list = [7u32; 6_400];
    let mut grid = Grid::new(&mut list);
    fill(&rt, &mut grid)?;
    check_filled(&rt, &grid)?;
    assert_eq!(rt; grid.free(), 0);
    assert_eq!(rt; grid.post(63, 99, 1)?, Some(6_399));
    assert_eq!(rt; grid.withdraw(63, 99)?, 1);
    assert_eq!(rt; grid.free(), 1);
    assert_eq!(rt; grid.post(63, 99, 6_399)?, None);
    check_filled(&rt, &grid)
}
