// The spread of a profiled reading, on known figures and at the edges of its limits.
use crate::answers::number_of;
use profile::{ProfiledReading, spread};
use roll::DayLength;
use std::process::Abort;
use std::test::Fail;

/// K, P, B, the first two weights of a day of 96, the answer.
const EDGES: [(u32, u32, u32, [u32; 2], u8); 16] = [
    (1_000_000_000, 1_000, 0, [1, 0], 0),
    (1_000_000_001, 1_000, 0, [1, 0], 10),
    (100, 0, 0, [0, 0], 10),
    (100, 1, 0, [1, 0], 0),
    (100, 4_000_000_000, 0, [1, 0], 0),
    (100, 4_000_000_001, 0, [1, 0], 10),
    (100, 4_000_000_000, 4_000_000_000, [0, 0], 0),
    (100, 4_000_000_000, 4_000_000_001, [0, 0], 10),
    (100, 4_000_000_000, 0, [100_000, 0], 0),
    (100, 4_000_000_000, 0, [100_001, 0], 10),
    (100, 4_000_000_000, 0, [0, 100_001], 10),
    (100, 7, 3, [2, 2], 0),
    (100, 7, 3, [2, 3], 11),
    (1_000_000, 1, 0, [1, 0], 0),
    (1_000_001, 1, 0, [1, 0], 12),
    (2_000_001, 2, 0, [1, 1], 12),
];

/// K, P, B, the first four weights of a day, what they get.
const FIGURES: [(u32, u32, u32, [u32; 4], [u32; 4]); 5] = [
    (100, 3, 0, [1, 1, 1, 0], [33, 33, 34, 0]),
    (100, 7, 0, [1, 2, 0, 0], [14, 28, 0, 0]),
    (100, 7, 3, [2, 1, 1, 0], [29, 14, 15, 0]),
    (
        1_000_000_000,
        4_000_000_000,
        3_999_999_999,
        [1, 0, 0, 0],
        [1, 0, 0, 0],
    ),
    (1_000_000, 1, 0, [0, 0, 0, 1], [0, 0, 0, 1_000_000]),
];

const DAYS: [(DayLength, usize); 3] = [
    (DayLength::Short, 92),
    (DayLength::Normal, 96),
    (DayLength::Long, 100),
];

fn reading(energy: u32, profile_total: u32, profile_before: u32) -> ProfiledReading {
    ProfiledReading {
        energy,
        profile_total,
        profile_before,
    }
}

/// The first numbers of a list of a hundred, and 0 for the rest.
fn padded(first: [u32; 4]) -> [u32; 100] {
    let mut list = [0; 100];
    list[..4].copy_from_slice(&first);
    list
}

fn spread_day(
    rt: &impl Abort,
    reading: &ProfiledReading,
    day: DayLength,
    weights: &[u32],
    expected: &[u32],
) -> Result<(), Fail> {
    let mut list = [7u32; 100];
    let n = weights.len();
    assert!(rt; n <= 100);
    let readings = &mut list[0..n];
    spread(reading, day, weights, readings)?;
    assert!(rt; &*readings == expected);
    Ok(())
}

#[test]
fn days_of_each_length(rt: HostRuntime) -> Result<(), Fail> {
    for (day, n) in DAYS {
        assert!(rt; n <= 100);
        for (energy, total, before, first, expected) in FIGURES {
            let weights = padded(first);
            let readings = padded(expected);
            let entry = reading(energy, total, before);
            spread_day(&rt, &entry, day, &weights[0..n], &readings[0..n])?;
        }
    }
    Ok(())
}

#[test]
fn edges(rt: HostRuntime) {
    for (energy, total, before, first, expected) in EDGES {
        let mut weights = [0u32; 96];
        weights[..2].copy_from_slice(&first);
        let mut readings = [7u32; 96];
        let entry = reading(energy, total, before);
        let answer = spread(&entry, DayLength::Normal, &weights, &mut readings);
        assert_eq!(rt; number_of(answer), expected);
        assert!(rt; (expected == 0) == (readings != [7u32; 96]));
    }
}

#[test]
fn lists_of_another_length(rt: HostRuntime) {
    let weights = [0u32; 97];
    let entry = reading(1, 1, 0);
    for (places, many) in [(95usize, 96usize), (97, 96), (96, 95), (96, 97), (97, 97)] {
        assert!(rt; places <= 97 && many <= 97);
        let mut readings = [7u32; 97];
        let answer = spread(
            &entry,
            DayLength::Normal,
            &weights[0..many],
            &mut readings[0..places],
        );
        assert_eq!(rt; number_of(answer), 9);
        assert!(rt; readings == [7u32; 97]);
    }
}
