// The roll's ranges, last allowed and first refused, and the weights.
use crate::answers::number_of;
use roll::{Draft, Row, row_weight};
use std::test::Fail;

/// Segment number; QSE, settlement point, loss code, meter mark and NOIE mark; answer.
const ENTRIES: [(u8, [u8; 5], u8); 23] = [
    (63, [15, 7, b'E', 1, 1], 0),
    (64, [0, 0, b'A', 0, 0], 1),
    (64, [16, 0, b'A', 0, 0], 1),
    (255, [0, 0, b'A', 0, 0], 1),
    (0, [15, 0, b'A', 0, 0], 0),
    (0, [16, 0, b'A', 0, 0], 6),
    (0, [0, 7, b'A', 0, 0], 0),
    (0, [0, 8, b'A', 0, 0], 6),
    (0, [0, 0, b'A', 0, 0], 0),
    (0, [0, 0, b'B', 0, 0], 0),
    (0, [0, 0, b'C', 0, 0], 0),
    (0, [0, 0, b'D', 0, 0], 0),
    (0, [0, 0, b'E', 0, 0], 0),
    (0, [0, 0, b'T', 0, 0], 0),
    (0, [0, 0, b'F', 0, 0], 6),
    (0, [0, 0, b'S', 0, 0], 6),
    (0, [0, 0, b'U', 0, 0], 6),
    (0, [0, 0, b'a', 0, 0], 6),
    (0, [0, 0, 0, 0, 0], 6),
    (0, [0, 0, b'A', 1, 0], 0),
    (0, [0, 0, b'A', 2, 0], 6),
    (0, [0, 0, b'A', 0, 1], 0),
    (0, [0, 0, b'A', 0, 2], 6),
];

/// NOIE mark, meter mark, and the weights with loss codes A to E and T.
const WEIGHTS: [(u8, u8, [u8; 6]); 4] = [
    (0, 0, [5, 5, 5, 5, 5, 1]),
    (0, 1, [10, 10, 10, 10, 10, 10]),
    (1, 0, [0, 0, 0, 0, 0, 0]),
    (1, 1, [0, 0, 0, 0, 0, 0]),
];

pub fn row([qse, point, code, meter, noie]: [u8; 5]) -> Row {
    Row {
        qse,
        point,
        code,
        meter,
        noie,
    }
}

fn fields(row: Option<Row>) -> Option<[u8; 5]> {
    row.map(|row| [row.qse, row.point, row.code, row.meter, row.noie])
}

#[test]
fn segment_entries(rt: HostRuntime) -> Result<(), Fail> {
    for (number, fields, expected) in ENTRIES {
        let mut draft = Draft::begin(96)?;
        let answer = draft.segment(number, &row(fields));
        assert_eq!(rt; number_of(answer), expected, "{}", number);
    }
    Ok(())
}

#[test]
fn second_entry_of_a_segment(rt: HostRuntime) -> Result<(), Fail> {
    let mut draft = Draft::begin(96)?;
    let first = [1, 0, b'A', 1, 0];
    let second = [2, 3, b'T', 0, 1];
    draft.segment(63, &row(first))?;
    assert_eq!(rt; number_of(draft.segment(63, &row(second))), 13);
    assert_eq!(rt; fields(draft.roll().row(63)), Some(first));
    assert_eq!(rt; fields(draft.roll().row(62)), None);
    Ok(())
}

#[test]
fn sites(rt: HostRuntime) -> Result<(), Fail> {
    let mut draft = Draft::begin(96)?;
    assert_eq!(rt; number_of(draft.site(15)), 0);
    assert_eq!(rt; number_of(draft.site(16)), 4);
    assert_eq!(rt; number_of(draft.site(15)), 13);
    assert!(rt; draft.roll().has_site(15));
    assert!(rt; !draft.roll().has_site(14));
    Ok(())
}

#[test]
fn day_lengths(rt: HostRuntime) {
    for quarter_hours in 91u8..102 {
        let number = match Draft::begin(quarter_hours) {
            Ok(draft) => draft.length().quarter_hours(),
            Err(refusal) => refusal.answer().number,
        };
        let expected = match quarter_hours {
            92 | 96 | 100 => quarter_hours,
            _ => 7,
        };
        assert_eq!(rt; number, expected);
    }
}

#[test]
fn weights(rt: HostRuntime) {
    for (noie, meter, expected) in WEIGHTS {
        for (code, weight) in b"ABCDET".iter().zip(expected.iter()) {
            assert_eq!(rt; row_weight(&row([3, 2, *code, meter, noie])), Some(*weight));
        }
    }
    assert_eq!(rt; row_weight(&row([16, 0, b'A', 0, 0])), None);
}
