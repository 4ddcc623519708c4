// What giving a loss factor answers.
use crate::answers::number_of;
use book::LoadBook;
use losses::{Distribution, Transmission};
use slips::SlipBook;
use std::process::Abort;

/// The letter of a code, quarter hour, factor, answer.
const DISTRIBUTION: [(u8, u8, u32, u8); 11] = [
    (b'A', 0, 0, 0),
    (b'A', 99, 500_000, 0),
    (b'E', 99, 500_000, 0),
    (b'A', 99, 500_001, 8),
    (b'F', 0, 1, 8),
    (b'T', 0, 1, 8),
    (b'a', 0, 1, 8),
    (0, 0, 1, 8),
    (b'A', 100, 1, 2),
    (b'A', 100, 500_001, 2),
    (b'F', 100, 1, 2),
];

/// Quarter hour, factor, answer.
const TRANSMISSION: [(u8, u32, u8); 5] = [
    (0, 0, 0),
    (99, 500_000, 0),
    (99, 500_001, 8),
    (100, 1, 2),
    (100, 500_001, 2),
];

fn check_distribution<B: LoadBook + Drop>(rt: &impl Abort, book: B) {
    let mut layer = Distribution::over(book);
    for (letter, quarter_hour, factor, expected) in DISTRIBUTION {
        let answer = layer.set_factor(letter, quarter_hour, factor);
        assert_eq!(rt; number_of(answer), expected, "{}", letter);
    }
}

fn check_transmission<B: LoadBook + Drop>(rt: &impl Abort, book: B) {
    let mut layer = Transmission::over(book);
    for (quarter_hour, factor, expected) in TRANSMISSION {
        let answer = layer.set_factor(quarter_hour, factor);
        assert_eq!(rt; number_of(answer), expected, "{}", quarter_hour);
    }
}

#[test]
fn ranges_of_factors(rt: HostRuntime) {
    check_distribution(&rt, SlipBook::new(&mut []));
    check_transmission(&rt, SlipBook::new(&mut []));
}
