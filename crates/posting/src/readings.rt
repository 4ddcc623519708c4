// The readings of one day.
ghost use Rattle.std.specs.Prelude.{◌≡◌, true, take};
ghost use Rattle.roll.specs.Days.{quarters_of};
ghost use Rattle.profile.specs.Answer.{up_to};

use roll::DayLength;

pub mod profiled;

/// A reading for each quarter hour of a day, none above 1,000,000 Wh: so whatever posts them has
/// nothing left to refuse but a wrong segment and the want of places.
// The list has room for the longest day, and how much of it counts goes by the day, which is no length
// beside it: no call of the box takes memory, and a fixed list can be lent to what fills it.
#[derive(Clone, Copy)]
pub struct DayReadings {
    day: DayLength,
    list: [u32; 100],
    ghost readable: { up_to 1000000 (take (quarters_of day) list) ≡ true },
}
