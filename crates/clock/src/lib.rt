// The clock times of a day of 24 hours, and how they are written.
#![tactic(auto)]

ghost use Rattle.std.specs.Prelude.{◌≡◌, Some};
ghost use Rattle.clock.specs.Clock.{clock_of, clock_text};

use std::fmt;

/// A time of the clock on a day of 24 hours, 24:00 among them.
#[derive(Clone, Copy, PartialEq, Eq, Debug)]
pub struct ClockTime {
    pub hour: u64,
    pub minute: u64,
}

/// When a quarter hour begins.
pub fn clock_time(quarter_hour: u64) -> ClockTime
    ensures { result ≡ clock_of quarter_hour }
{
    ClockTime {
        hour: quarter_hour / 4,
        minute: quarter_hour % 4 * 15,
    }
}

impl fmt::Display for ClockTime {
    ghost output = { λ t. Some (clock_text t) };

    #[tactic(auto, using(crate::proofs::Digits::two_places))]
    fn fmt<W: fmt::Write>(&self, f: &mut fmt::Formatter<W>) -> fmt::Result {
        let ClockTime { hour, minute } = *self;
        write!(f, "{hour:02}:{minute:02}")
    }
}
