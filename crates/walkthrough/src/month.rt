// A monthly reading, spread over the quarter hours of its days.
ghost use Rattle.std.specs.Prelude.{◌≡◌, IfOk, Ok};
ghost use Rattle.walkthrough.specs.Spans.{spread_on};

mod shapes;
mod span;
mod telling;

use crate::telling::stopped;
use profile::ProfiledReading;
use refusal::Refusal;
use roll::DayLength;
use span::Shapes;
use std::io;
use telling::Shown;

/// What was read off the household's meter, in Wh.
const READING: u32 = 873_450;

/// One Wh more than the box takes.
const TOO_MUCH: u32 = 1_000_000_001;

/// June 12.
const DAY: u8 = 11;

/// The reading's entry for one of the days, that day's readings, and what all the days get.
fn work_out(month: &Shapes) -> Result<Shown, Refusal>
    ensures day { IfOk result (λ x. Ok x.readings ≡ spread_on month.now 873450 11) }
    ensures whole { IfOk result (λ x. x.all_days ≡ 873450) }
{
    let entry = month.entry(READING, DAY)?;
    let next_entry = month.entry(READING, DAY + 1)?;
    let readings = span::spread_day(month, READING, DAY)?;
    let all_days = span::spread_month(month, READING)?;
    Ok(Shown {
        day: DAY,
        entry,
        next_entry,
        weights: *month.weights(DAY),
        readings,
        all_days,
    })
}

/// Enters the day once more, with too much energy, over the readings that stand.
fn show_refused(rt: &HostRuntime, shown: &Shown) -> io::Result<()> {
    let entry = ProfiledReading {
        energy: TOO_MUCH,
        profile_total: shown.entry.profile_total,
        profile_before: shown.entry.profile_before,
    };
    let mut list = shown.readings;
    match profile::spread(&entry, DayLength::Normal, &shown.weights, &mut list) {
        Ok(()) => telling::taken(rt, &entry),
        Err(refusal) => telling::refused(rt, &entry, &refusal, list == shown.readings),
    }
}

pub fn show(rt: &HostRuntime) -> io::Result<()> {
    let month = Shapes {
        weekday: shapes::WEEKDAY,
        weekend: shapes::WEEKEND,
    };
    match work_out(&month) {
        Ok(shown) => {
            telling::entry(rt, &shown)?;
            telling::day(rt, &shown)?;
            telling::all_days(rt, &shown)?;
            show_refused(rt, &shown)
        }
        Err(refusal) => stopped(rt, "reading", &refusal),
    }
}
