// Enters a day of four segments on transmission over distribution over a grid, and prints the statement
// of its first quarter hour, and nothing else.
#![tactic(auto)]

use book::LoadBook;
use grid::Grid;
use losses::{Distribution, Transmission};
use refusal::Refusal;
use roll::{Draft, Row};
use run::{Answer, Call, Entry, run_day};
use std::io;
use std::io::Write;

// The rows and the losses stand in two other programs too, which tell of them: each program is read by
// itself, and a crate of theirs would need contracts for what the programs' output shows.
const ROWS: [Row; 4] = [
    Row {
        qse: 1,
        point: 0,
        code: b'A',
        meter: 1,
        noie: 0,
    },
    Row {
        qse: 2,
        point: 0,
        code: b'B',
        meter: 0,
        noie: 0,
    },
    Row {
        qse: 1,
        point: 1,
        code: b'T',
        meter: 0,
        noie: 0,
    },
    Row {
        qse: 3,
        point: 1,
        code: b'T',
        meter: 0,
        noie: 1,
    },
];

/// A reading for the first quarter hour.
fn post<'a>(segment: u8, reading: u32) -> Call<'a> {
    Call::Entry(Entry::Post {
        segment,
        quarter_hour: 0,
        reading,
    })
}

/// A site's figure for the first quarter hour.
fn figure<'a>(site: u8, wh: i32) -> Call<'a> {
    Call::Entry(Entry::Figure {
        site,
        quarter_hour: 0,
        wh,
    })
}

/// The readings of the segments and the figures of the sites, in Wh, and the sealing.
fn calls<'a>() -> [Call<'a>; 7] {
    [
        post(0, 1_000),
        post(1, 2_000),
        post(2, 3_000),
        post(3, 4_000),
        figure(0, 11_000),
        figure(1, -300),
        Call::Seal,
    ]
}

fn draft() -> Result<Draft, Refusal> {
    let mut draft = Draft::begin(96)?;
    for (segment, row) in (0..4u8).zip(ROWS.iter()) {
        draft.segment(segment, row)?;
    }
    draft.site(0)?;
    draft.site(1)?;
    Ok(draft)
}

/// Does the calls on a day of the draft, and writes the statement.
fn settle<B: LoadBook + Drop>(draft: Draft, book: B, text: &mut [u8]) -> Result<usize, Refusal> {
    let mut answers = [Answer::Unlawful; 7];
    let run = run_day(draft, book, &calls(), &mut answers).map_err(|unopened| unopened.refusal)?;
    run.day.statement(0, text)
}

/// Lays transmission over distribution over a book, and settles.
fn settle_under_losses<B: LoadBook + Drop>(
    draft: Draft,
    book: B,
    text: &mut [u8],
) -> Result<usize, Refusal> {
    let mut distribution = Distribution::over(book);
    distribution.take_over_codes(draft.roll());
    distribution.set_factor(b'A', 0, 50_000)?;
    distribution.set_factor(b'B', 0, 25_000)?;
    let mut transmission = Transmission::over(distribution);
    transmission.set_factor(0, 20_000)?;
    settle(draft, transmission, text)
}

fn work_out(text: &mut [u8]) -> Result<usize, Refusal> {
    let mut cells = [0; 6_400];
    settle_under_losses(draft()?, Grid::new(&mut cells), text)
}

fn main(rt: HostRuntime) -> io::Result<()> {
    let mut text = [0; 2_048];
    match work_out(&mut text) {
        Ok(bytes) => rt.stdout().write_all(text.get(..bytes).unwrap_or_default()),
        Err(refusal) => println!(rt; "{refusal}"),
    }
}
