// The monthly reading in words.
use crate::figures;
use crate::figures::{Grouped, QuarterHours};
use crate::month::span;
use clock::clock_time;
use profile::ProfiledReading;
use refusal::Refusal;
use std::io;

/// What is told of the reading and of one of its days.
#[derive(Clone, Copy)]
pub struct Shown {
    /// Counted from 0.
    pub day: u8,
    pub entry: ProfiledReading,
    /// The entry for the day after.
    pub next_entry: ProfiledReading,
    pub weights: QuarterHours,
    pub readings: QuarterHours,
    /// In Wh.
    pub all_days: u64,
}

pub fn entry(rt: &HostRuntime, shown: &Shown) -> io::Result<()> {
    let energy = Grouped::from(shown.entry.energy);
    let total = Grouped::from(shown.entry.profile_total);
    let weekday = span::weekday(shown.day);
    let date = u16::from(shown.day) + 1;
    println!(rt; "A monthly reading, spread over its days")?;
    println!(rt; "")?;
    println!(rt; "A household's meter was read once for the 30 days of June: {energy} Wh.")?;
    println!(rt; "The load profile gives every quarter hour of June a weight, {total} in all.")?;
    println!(rt; "We look at one of the days, {weekday}, June {date}.")?;
    weights(rt, shown)
}

fn weights(rt: &HostRuntime, shown: &Shown) -> io::Result<()> {
    let before = Grouped::from(shown.entry.profile_before);
    let own = Grouped(figures::total(&shown.weights));
    let largest = figures::largest(&shown.weights);
    let weight = largest.value;
    let time = clock_time(largest.place as u64);
    println!(rt; "Of the weights {before} lie before that day, and {own} belong to its own 96")?;
    println!(rt; "quarter hours. The largest of these is {weight}, at {time}.")?;
    println!(rt;
        "The entry was checked and taken: there is a weight and a place for each quarter"
    )?;
    println!(rt; "hour, every number is within its limits, and the day ends within the month.")?;
    println!(rt; "")
}

pub fn day(rt: &HostRuntime, shown: &Shown) -> io::Result<()> {
    let start = Grouped(span::used_before(&shown.entry));
    let end = Grouped(span::used_before(&shown.next_entry));
    let total = Grouped(figures::total(&shown.readings));
    println!(rt; "By the profile {start} Wh were used before that day, and {end} Wh by its end.")?;
    println!(rt; "The day's 96 quarter hours add up to what lies between: {total} Wh.")?;
    let largest = figures::largest(&shown.readings);
    quarter_hour(rt, "first", 0, shown.readings[0])?;
    quarter_hour(rt, "largest", largest.place, largest.value)?;
    quarter_hour(rt, "last", 95, shown.readings[95])?;
    println!(rt; "")
}

fn quarter_hour(rt: &HostRuntime, which: &str, place: usize, reading: u32) -> io::Result<()> {
    let time = clock_time(place as u64);
    let energy = Grouped::from(reading);
    println!(rt; "The {which} quarter hour begins at {time} and gets {energy} Wh.")
}

pub fn all_days(rt: &HostRuntime, shown: &Shown) -> io::Result<()> {
    let all_days = Grouped(shown.all_days);
    let energy = Grouped::from(shown.entry.energy);
    println!(rt; "Every day of June was spread in this way, week-ends by weights of their own.")?;
    println!(rt; "The 30 days add up to {all_days} Wh, of the {energy} Wh that were read.")?;
    println!(rt; "")
}

pub fn refused(
    rt: &HostRuntime,
    entry: &ProfiledReading,
    refusal: &Refusal,
    unchanged: bool,
) -> io::Result<()> {
    let energy = Grouped::from(entry.energy);
    // the number first, and then the words
    let number = refusal.answer().number;
    let list = if unchanged {
        "stayed as it was"
    } else {
        "was changed"
    };
    println!(rt; "The same entry with {energy} Wh is sent back, with refusal {number}:")?;
    println!(rt; "{refusal}.")?;
    println!(rt; "The list of the day's readings {list}.")
}

pub fn taken(rt: &HostRuntime, entry: &ProfiledReading) -> io::Result<()> {
    let energy = Grouped::from(entry.energy);
    println!(rt; "The same entry with {energy} Wh was taken.")
}
