// A day of four segments on transmission over distribution over a grid, with a reading that is mistyped
// and one that is misread.
use crate::books::under_losses;
use crate::calls::{figure, loads, post, shares, ufe};
use crate::told_day;
use crate::told_day::Stop;
use book::LoadBook;
use grid::Grid;
use roll::Row;
use run::{Answer, Call};
use std::io;

/// A town with wires of its own.
const TOWN: Row = Row {
    qse: 3,
    point: 1,
    code: b'T',
    meter: 0,
    noie: 1,
};

fn calls<'a>() -> [Call<'a>; 13] {
    [
        post(0, 0, 1_000),
        post(1, 0, 20_000_000),
        post(1, 0, 2_000),
        post(2, 0, 3_300),
        post(2, 0, 3_000),
        post(3, 0, 4_000),
        figure(0, 0, 11_000),
        ufe(0),
        figure(1, 0, -300),
        Call::Seal,
        ufe(0),
        loads(0),
        shares(0),
    ]
}

fn settle<B: LoadBook + Drop>(rt: &HostRuntime, book: B) -> Result<(), Stop> {
    let mut draft = told_day::draft(96)?;
    draft.segment(3, &TOWN)?;
    let mut answers = [Answer::Unlawful; 13];
    match under_losses(book, &draft, 0) {
        Ok(pile) => told_day::tell_run(rt, draft, pile, &calls(), &mut answers),
        Err(refusal) => Err(Stop::Refused(refusal)),
    }
}

pub fn show(rt: &HostRuntime) -> io::Result<()> {
    println!(rt; "A day of four segments, on transmission over distribution over a grid")?;
    let mut cells = [0; 6_400];
    told_day::end(rt, settle(rt, Grid::new(&mut cells)))
}
