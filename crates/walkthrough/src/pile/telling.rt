// The pile of loss adjustments in words.
use crate::figures::Grouped;
use crate::pile::work::{Climb, Climbs};
use crate::shared::{DISTRIBUTION, NOON, TRANSMISSION};
use clock::clock_time;
use refusal::Refusal;
use std::io;

pub fn pile(rt: &HostRuntime, climbs: &Climbs) -> io::Result<()> {
    layers(rt)?;
    taken(rt, climbs)?;
    refused(rt, climbs)
}

fn layers(rt: &HostRuntime) -> io::Result<()> {
    let time = clock_time(u64::from(NOON));
    let distribution = Grouped::from(DISTRIBUTION);
    let transmission = Grouped::from(TRANSMISSION);
    println!(rt; "Readings going up through a pile of loss adjustments")?;
    println!(rt; "")?;
    println!(rt; "On the roll of a day are a household, segment 0, with loss code A, and a mill,")?;
    println!(rt;
        "segment 2, served at transmission voltage, with loss code T. Their readings stand"
    )?;
    println!(rt;
        "in a grid. Over it lies the distribution adjustment, and transmission over that."
    )?;
    println!(rt;
        "For the quarter hour at {time} distribution has the factor {distribution} for code A,"
    )?;
    println!(rt; "and transmission {transmission} for every segment, in millionths.")?;
    println!(rt; "")
}

fn taken(rt: &HostRuntime, climbs: &Climbs) -> io::Result<()> {
    let time = clock_time(u64::from(NOON));
    println!(rt; "The household at {time}:")?;
    heights(rt, &climbs.household)?;
    let at_once = Grouped::from(climbs.at_once);
    println!(rt;
        "Each layer works on what the one below it made: one layer alone, with both factors"
    )?;
    println!(rt; "in one, would have made {at_once} Wh of the reading.")?;
    println!(rt; "")?;
    println!(rt; "The mill at {time}, which has no distribution loss:")?;
    heights(rt, &climbs.mill)?;
    println!(rt; "")
}

fn refused(rt: &HostRuntime, climbs: &Climbs) -> io::Result<()> {
    let time = clock_time(u64::from(NOON));
    let later = clock_time(u64::from(NOON) + 1);
    println!(rt;
        "Segment 5 at {time}, for which nothing was posted. The height of a refusal counts"
    )?;
    println!(rt; "the layers that it came up through:")?;
    heights(rt, &climbs.unread)?;
    println!(rt; "")?;
    println!(rt; "The household at {later}, a quarter hour for which no factor was given:")?;
    heights(rt, &climbs.unrated)
}

fn heights(rt: &HostRuntime, climb: &Climb) -> io::Result<()> {
    answer(rt, "in the grid", &climb.metered)?;
    answer(rt, "after distribution", &climb.distributed)?;
    answer(rt, "after transmission", &climb.transmitted)
}

fn answer(rt: &HostRuntime, place: &str, load: &Result<u32, Refusal>) -> io::Result<()> {
    match load {
        Ok(load) => {
            let energy = Grouped::from(*load);
            println!(rt; "- {place}: {energy} Wh.")
        }
        Err(refusal) => {
            let answer = refusal.answer();
            println!(rt;
                "- {place}: refusal {}, segment {}, height {}: {refusal}.",
                answer.number, answer.subject, answer.height
            )
        }
    }
}
