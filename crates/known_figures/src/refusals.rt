// The answers and the words of the refusals.
use crate::answers::numbers;
use refusal::Refusal;

/// Each refusal with its number, subject and height.
const ANSWERS: [(Refusal, [u8; 3]); 12] = [
    (Refusal::SegmentNumber, [1, 0, 0]),
    (Refusal::Factor, [8, 0, 0]),
    (Refusal::ProfiledQuarterHour, [12, 0, 0]),
    (Refusal::AlreadyOnRoll, [13, 0, 0]),
    (Refusal::NotOnRoll { subject: 63 }, [14, 63, 0]),
    (Refusal::NotOnRoll { subject: 0 }, [14, 0, 0]),
    (Refusal::NoPlace, [15, 0, 0]),
    (
        Refusal::NoReading {
            segment: 5,
            height: 255,
        },
        [18, 5, 255],
    ),
    (
        Refusal::NoFactor {
            segment: 63,
            height: 1,
        },
        [19, 63, 1],
    ),
    (
        Refusal::LoadTooLarge {
            segment: 7,
            height: 2,
        },
        [20, 7, 2],
    ),
    (Refusal::NoFigure { site: 15 }, [21, 15, 0]),
    (Refusal::NoTotal, [23, 0, 0]),
];

const WORDS: [(Refusal, &str); 3] = [
    (Refusal::SegmentNumber, "segment number above 63"),
    (
        Refusal::NotOnRoll { subject: 9 },
        "segment or site not on the roll",
    ),
    (Refusal::NoTotal, "the total of all loads is not positive"),
];

#[test]
fn numbers_subjects_and_heights(rt: HostRuntime) {
    for (refusal, expected) in ANSWERS {
        assert_eq!(rt; numbers(&refusal), expected);
    }
}

#[test]
fn words(rt: HostRuntime) {
    for (refusal, expected) in WORDS {
        assert_eq!(rt; refusal.words(), expected);
    }
}
