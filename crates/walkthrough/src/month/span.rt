// A month of two kinds of day, and a reading that is spread over it.
ghost use Rattle.std.specs.Prelude.{◌≡◌, ◌%◌, IfOk};
ghost use Rattle.walkthrough.specs.Spans.{weekend, weekday_of, units_before, weights_on, weight_before, entry_of, spread_on, days_total};

use crate::figures;
use crate::figures::QuarterHours;
use profile::ProfiledReading;
use refusal::Refusal;
use roll::DayLength;

/// The days of the month, which begins on a Monday. They are counted from 0.
pub const DAYS: u8 = 30;

/// The profile weights of the two kinds of day.
#[derive(Clone, Copy)]
pub struct Shapes {
    pub weekday: QuarterHours,
    pub weekend: QuarterHours,
}

fn is_weekend(day: u8) -> bool
    ensures { result ≡ weekend day }
{
    day % 7 >= 5
}

pub fn weekday(day: u8) -> &'static str
    ensures { result.now ≡ weekday_of (day % 7) }
{
    // An enum would be made from the number by one match, and told by another.
    match day % 7 {
        0 => "Monday",
        1 => "Tuesday",
        2 => "Wednesday",
        3 => "Thursday",
        4 => "Friday",
        5 => "Saturday",
        _ => "Sunday",
    }
}

impl Shapes {
    pub fn weights(&self, day: u8) -> &QuarterHours
        ensures { result.now ≡ weights_on self.now day }
    {
        if is_weekend(day) {
            &self.weekend
        } else {
            &self.weekday
        }
    }

    /// The profile weights of all the days before one.
    pub fn before(&self, day: u8) -> u64
        ensures weight { result ≡ weight_before self.now day }
    {
        let mut weight = 0;
        for earlier in 0..day {
            weight += figures::total(self.weights(earlier));
        }
        weight
    }

    /// What the box is told of a reading for one of the days.
    pub fn entry(&self, energy: u32, day: u8) -> Result<ProfiledReading, Refusal>
        ensures { result ≡ entry_of self.now energy day }
    {
        let total = self.before(DAYS);
        let before = self.before(day);
        Ok(ProfiledReading {
            energy,
            profile_total: u32::try_from(total).map_err(|_| Refusal::ProfileLimit)?,
            profile_before: u32::try_from(before).map_err(|_| Refusal::ProfileLimit)?,
        })
    }
}

/// What the profile had used of the reading before the day of the entry.
pub fn used_before(entry: &ProfiledReading) -> u64
    ensures { result ≡ units_before entry.now }
{
    if entry.profile_total == 0 {
        return 0;
    }
    u64::from(entry.energy) * u64::from(entry.profile_before) / u64::from(entry.profile_total)
}

/// The readings of one day's quarter hours.
pub fn spread_day(shapes: &Shapes, energy: u32, day: u8) -> Result<QuarterHours, Refusal>
    ensures { result ≡ spread_on shapes.now energy day }
{
    let entry = shapes.entry(energy, day)?;
    let mut readings = [0; 96];
    profile::spread(
        &entry,
        DayLength::Normal,
        shapes.weights(day),
        &mut readings,
    )?;
    Ok(readings)
}

/// What all the days get together, each spread by itself: the reading, if no day is refused.
pub fn spread_month(shapes: &Shapes, energy: u32) -> Result<u64, Refusal>
    ensures days { result ≡ days_total shapes.now energy 30 }
    ensures whole { IfOk result (λ t. t ≡ energy) }
{
    let mut sum = 0;
    for day in 0..DAYS {
        let readings = spread_day(shapes, energy, day)?;
        sum += figures::total(&readings);
    }
    Ok(sum)
}
