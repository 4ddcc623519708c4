// What a line is about, said in front of its answer: which segment, site or layer, and when.
use crate::field::LARGEST;
use clock::clock_time;
use std::fmt;

/// A number as it was typed.
#[derive(Clone, Copy)]
struct Typed(u64);

impl fmt::Display for Typed {
    fn fmt<W: fmt::Write>(&self, f: &mut fmt::Formatter<W>) -> fmt::Result {
        let Typed(number) = *self;
        if number == LARGEST {
            write!(f, "{number} or more")
        } else {
            write!(f, "{number}")
        }
    }
}

#[derive(Clone, Copy)]
pub enum Subject {
    Segment(u64),
    Site(u64),
    Layer(u64),
    Pair { qse: u64, point: u64 },
}

impl fmt::Display for Subject {
    fn fmt<W: fmt::Write>(&self, f: &mut fmt::Formatter<W>) -> fmt::Result {
        match *self {
            Subject::Segment(number) => write!(f, "segment {}", Typed(number)),
            Subject::Site(number) => write!(f, "site {}", Typed(number)),
            Subject::Layer(number) => write!(f, "layer {}", Typed(number)),
            Subject::Pair { qse, point } => {
                write!(f, "QSE {} at settlement point {}", Typed(qse), Typed(point))
            }
        }
    }
}

/// A quarter hour as it was typed.
#[derive(Clone, Copy)]
enum QuarterHour {
    /// With its clock time, on a day that has them.
    Timed(u8),
    /// On any other day, or past the end of the day.
    Numbered(u64),
}

impl QuarterHour {
    /// Only a day of 96 has clock times.
    fn new(number: u64, has_clock: bool) -> QuarterHour {
        match u8::try_from(number) {
            Ok(timed) if has_clock && timed < 96 => QuarterHour::Timed(timed),
            _ => QuarterHour::Numbered(number),
        }
    }
}

impl fmt::Display for QuarterHour {
    fn fmt<W: fmt::Write>(&self, f: &mut fmt::Formatter<W>) -> fmt::Result {
        match *self {
            QuarterHour::Timed(number) => {
                let from = u64::from(number);
                write!(
                    f,
                    "quarter hour {number}, {} to {}",
                    clock_time(from),
                    clock_time(from + 1)
                )
            }
            QuarterHour::Numbered(number) => write!(f, "quarter hour {}", Typed(number)),
        }
    }
}

/// All that stands in front of an answer, and nothing where the line names nothing.
#[derive(Clone, Copy, Default)]
pub struct Place {
    subject: Option<Subject>,
    quarter_hour: Option<QuarterHour>,
}

impl Place {
    /// On a day that has clock times or not.
    pub fn new(subject: Option<Subject>, quarter_hour: Option<u64>, has_clock: bool) -> Place {
        Place {
            subject,
            quarter_hour: quarter_hour.map(|number| QuarterHour::new(number, has_clock)),
        }
    }
}

impl fmt::Display for Place {
    fn fmt<W: fmt::Write>(&self, f: &mut fmt::Formatter<W>) -> fmt::Result {
        match (self.subject, self.quarter_hour) {
            (None, None) => Ok(()),
            (Some(subject), None) => write!(f, "{subject}: "),
            (None, Some(quarter_hour)) => write!(f, "{quarter_hour}: "),
            (Some(subject), Some(quarter_hour)) => write!(f, "{subject}, {quarter_hour}: "),
        }
    }
}
