// The balance of a quarter hour on known figures: 398 Wh are not accounted for.
use crate::rolls::row;
use balance::{Figures, QuarterHour};
use book::LoadBook;
use refusal::Refusal;
use roll::Draft;
use slips::{Slip, SlipBook};
use std::process::Abort;
use std::test::Fail;

/// Segment number; QSE, settlement point, loss code, meter mark and NOIE mark; load.
const SEGMENTS: [(u8, [u8; 5], u32); 4] = [
    (0, [1, 0, b'A', 1, 0], 1_071),
    (1, [2, 0, b'B', 0, 0], 2_091),
    (2, [1, 1, b'T', 0, 0], 3_060),
    (3, [3, 1, b'T', 0, 1], 4_080),
];

/// The adjusted loads of segments 0 to 4.
const ADJUSTED: [i64; 5] = [1_246, 2_263, 3_111, 4_080, 0];

/// QSE, settlement point, RTAML.
const RTAML: [(u8, u8, i64); 5] = [
    (1, 0, 1_246),
    (1, 1, 3_111),
    (2, 0, 2_263),
    (3, 1, 4_080),
    (0, 0, 0),
];

/// The shares of QSEs 0 to 4, in billionths.
const SHARES: [i64; 5] = [0, 407_196_261, 211_495_327, 381_308_412, 0];

fn draft() -> Result<Draft, Refusal> {
    let mut draft = Draft::begin(96)?;
    for (segment, fields, _) in SEGMENTS {
        draft.segment(segment, &row(fields))?;
    }
    draft.site(0)?;
    draft.site(1)?;
    Ok(draft)
}

// The walk has figures of this kind too, and is read by itself.
fn figures() -> Result<Figures, Refusal> {
    let mut figures = Figures::none();
    figures.enter(0, 48, 11_000)?;
    figures.enter(1, 48, -300)?;
    Ok(figures)
}

fn check_lists<B: LoadBook>(rt: &impl Abort, noon: &QuarterHour<B>) -> Result<(), Fail> {
    let mut adjusted = [7i64; 64];
    noon.adjusted_loads(&mut adjusted)?;
    assert!(rt; &adjusted[..5] == &ADJUSTED[..]);
    let mut shares = [7i64; 16];
    noon.shares(&mut shares)?;
    assert!(rt; &shares[..5] == &SHARES[..]);
    Ok(())
}

fn check_balance<B: LoadBook>(rt: &impl Abort, noon: &QuarterHour<B>) -> Result<(), Fail> {
    let energy = noon.generation_and_ufe()?;
    assert_eq!(rt; [energy.generation, energy.ufe], [10_700i64, 398]);
    for (qse, point, expected) in RTAML {
        assert_eq!(rt; noon.rtaml(qse, point)?, expected);
    }
    check_lists(rt, noon)
}

#[test]
fn four_segments_and_two_sites(rt: HostRuntime) -> Result<(), Fail> {
    let draft = draft()?;
    let figures = figures()?;
    let mut list = [Slip::default(); 4];
    let mut book = SlipBook::new(&mut list);
    for (segment, _, load) in SEGMENTS {
        book.post(segment, 48, load)?;
    }
    check_balance(
        &rt,
        &QuarterHour {
            roll: draft.roll(),
            book: &book,
            figures: &figures,
            quarter_hour: 48,
        },
    )
}
