// The last number that is taken and the first that is sent back, and a book with one place.
use crate::books::under_losses;
use crate::calls::{post, withdraw};
use crate::told_day;
use crate::told_day::Stop;
use book::LoadBook;
use grid::Grid;
use losses::TransmissionTable;
use refusal::Refusal;
use roll::Draft;
use run::{Answer, Call};
use slips::{Slip, SlipBook};
use std::io;

pub fn show(rt: &HostRuntime) -> io::Result<()> {
    readings(rt)?;
    factors(rt)?;
    one_place(rt)
}

/// Does five calls on a day and tells them.
fn five_calls<B: LoadBook + Drop>(
    rt: &HostRuntime,
    draft: Draft,
    book: B,
    calls: &[Call; 5],
) -> Result<(), Stop> {
    let mut answers = [Answer::Unlawful; 5];
    told_day::tell_run(rt, draft, book, calls, &mut answers)
}

fn largest_readings<'a>() -> [Call<'a>; 5] {
    [
        post(0, 0, 1_000_000),
        post(0, 0, 1_000_001),
        post(1, 0, 0),
        post(63, 0, 1),
        post(64, 0, 1),
    ]
}

fn readings_on<B: LoadBook + Drop>(rt: &HostRuntime, book: B) -> Result<(), Stop> {
    let draft = told_day::draft(96)?;
    match under_losses(book, &draft, 0) {
        Ok(pile) => five_calls(rt, draft, pile, &largest_readings()),
        Err(refusal) => Err(Stop::Refused(refusal)),
    }
}

fn readings(rt: &HostRuntime) -> io::Result<()> {
    println!(rt; "")?;
    println!(rt; "The largest reading, and one more")?;
    let mut cells = [0; 6_400];
    told_day::end(rt, readings_on(rt, Grid::new(&mut cells)))
}

fn factor(rt: &HostRuntime, factor: u32, answer: Result<(), Refusal>) -> io::Result<()> {
    match answer {
        Ok(()) => println!(rt; "- give a factor of {factor}: taken."),
        Err(refusal) => {
            // the number first, and then the words
            let number = refusal.answer().number;
            println!(rt; "- give a factor of {factor}: sent back with refusal {number}, {refusal}.")
        }
    }
}

fn factors(rt: &HostRuntime) -> io::Result<()> {
    println!(rt; "")?;
    println!(rt; "The largest loss factor, and one more")?;
    let mut table = TransmissionTable::empty();
    factor(rt, 500_000, table.set_factor(0, 500_000))?;
    factor(rt, 500_001, table.set_factor(0, 500_001))
}

fn places<'a>() -> [Call<'a>; 5] {
    [
        post(0, 0, 1_000),
        post(1, 0, 2_000),
        post(0, 0, 1_100),
        withdraw(0, 0),
        post(1, 0, 2_000),
    ]
}

fn places_on<B: LoadBook + Drop>(rt: &HostRuntime, book: B) -> Result<(), Stop> {
    five_calls(rt, told_day::draft(96)?, book, &places())
}

fn one_place(rt: &HostRuntime) -> io::Result<()> {
    println!(rt; "")?;
    println!(rt; "A slip book with one place")?;
    let mut slips = [Slip::default(); 1];
    told_day::end(rt, places_on(rt, SlipBook::new(&mut slips)))
}
