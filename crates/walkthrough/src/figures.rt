// What is read off the quarter hours of a day, and how amounts are written.
ghost use Rattle.std.specs.Prelude.{◌≡◌, ◌*◌, ◌^◌, ◌≤◌, Some, sum};
ghost use Rattle.walkthrough.specs.Figures.{first_largest, grouped, signed};

use std::fmt;

/// A number for each quarter hour of a day of 24 hours.
pub type QuarterHours = [u32; 96];

pub fn total(list: &QuarterHours) -> u64
    ensures sum { result ≡ sum list.now }
    ensures limit { result ≤ 96 * 2 ^ 32 }
{
    list.iter().map(|number| u64::from(*number)).sum()
}

/// The largest number of a list, and the first place where it stands.
#[derive(Clone, Copy)]
pub struct Peak {
    pub place: usize,
    pub value: u32,
}

pub fn largest(list: &QuarterHours) -> Peak
    ensures { result ≡ first_largest list.now }
{
    let mut peak = Peak {
        place: 0,
        value: list[0],
    };
    for (place, number) in list.iter().enumerate() {
        if *number > peak.value {
            peak = Peak {
                place,
                value: *number,
            };
        }
    }
    peak
}

/// A number with its thousands parted.
#[derive(Clone, Copy)]
pub struct Grouped(pub u64);

impl From<u32> for Grouped {
    ghost from_gives = { λ n g. g.0 ≡ n };

    fn from(n: u32) -> Grouped {
        Grouped(u64::from(n))
    }
}

impl fmt::Display for Grouped {
    ghost output = { λ g. Some (grouped g.0) };

    fn fmt<W: fmt::Write>(&self, f: &mut fmt::Formatter<W>) -> fmt::Result {
        let n = self.0;
        let ones = n % 1_000;
        let thousands = n / 1_000 % 1_000;
        let millions = n / 1_000_000 % 1_000;
        if n < 1_000 {
            write!(f, "{n}")
        } else if n < 1_000_000 {
            let front = n / 1_000;
            write!(f, "{front},{ones:03}")
        } else if n < 1_000_000_000 {
            let front = n / 1_000_000;
            write!(f, "{front},{thousands:03},{ones:03}")
        } else {
            let front = n / 1_000_000_000;
            write!(f, "{front},{millions:03},{thousands:03},{ones:03}")
        }
    }
}

/// An amount that may be negative, with its thousands parted.
#[derive(Clone, Copy)]
pub struct Signed(pub i64);

impl fmt::Display for Signed {
    ghost output = { λ s. Some (signed s.0) };

    fn fmt<W: fmt::Write>(&self, f: &mut fmt::Formatter<W>) -> fmt::Result {
        let size = Grouped(self.0.unsigned_abs());
        if self.0 < 0 {
            write!(f, "-{size}")
        } else {
            write!(f, "{size}")
        }
    }
}
