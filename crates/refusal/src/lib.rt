// The refusals of the box: one closed list, which every other crate answers from.
#![tactic(auto)]

ghost use Rattle.std.specs.Prelude.{◌≡◌, Some};
ghost use Rattle.refusal.specs.Table.{answer_of, words_of};

use std::fmt;

/// Why an entry or a question was sent back. The cases stand in the order in which they are checked.
#[derive(Clone, Copy, PartialEq, Eq, Debug)]
pub enum Refusal {
    SegmentNumber,
    QuarterHour,
    Reading,
    SiteNumber,
    Figure,
    SegmentField,
    DayLength,
    Factor,
    ListLength,
    ProfileLimit,
    ProfileTotal,
    ProfiledQuarterHour,
    AlreadyOnRoll,
    /// The number that was asked for: a segment's or a site's.
    NotOnRoll { subject: u8 },
    NoPlace,
    NothingStands,
    EmptyRoll,
    NoReading { segment: u8, height: u8 },
    NoFactor { segment: u8, height: u8 },
    LoadTooLarge { segment: u8, height: u8 },
    NoFigure { site: u8 },
    NoWeight,
    NoTotal,
}

/// What a refusal says to a program: its number, the segment or site at fault, and how many
/// adjustments a fault of a load book came up through. The last two are 0 where there is none.
#[derive(Clone, Copy, PartialEq, Eq, Debug)]
pub struct Answer {
    pub number: u8,
    pub subject: u8,
    pub height: u8,
}

fn plain(number: u8) -> Answer
    ensures { result ≡ record { number = number; subject = 0; height = 0 } }
{
    Answer {
        number,
        subject: 0,
        height: 0,
    }
}

impl Refusal {
    pub fn answer(&self) -> Answer
        ensures { result ≡ answer_of self.now }
    {
        match *self {
            Refusal::SegmentNumber => plain(1),
            Refusal::QuarterHour => plain(2),
            Refusal::Reading => plain(3),
            Refusal::SiteNumber => plain(4),
            Refusal::Figure => plain(5),
            Refusal::SegmentField => plain(6),
            Refusal::DayLength => plain(7),
            Refusal::Factor => plain(8),
            Refusal::ListLength => plain(9),
            Refusal::ProfileLimit => plain(10),
            Refusal::ProfileTotal => plain(11),
            Refusal::ProfiledQuarterHour => plain(12),
            Refusal::AlreadyOnRoll => plain(13),
            Refusal::NotOnRoll { subject } => Answer {
                number: 14,
                subject,
                height: 0,
            },
            Refusal::NoPlace => plain(15),
            Refusal::NothingStands => plain(16),
            Refusal::EmptyRoll => plain(17),
            Refusal::NoReading { segment, height } => Answer {
                number: 18,
                subject: segment,
                height,
            },
            Refusal::NoFactor { segment, height } => Answer {
                number: 19,
                subject: segment,
                height,
            },
            Refusal::LoadTooLarge { segment, height } => Answer {
                number: 20,
                subject: segment,
                height,
            },
            Refusal::NoFigure { site } => Answer {
                number: 21,
                subject: site,
                height: 0,
            },
            Refusal::NoWeight => plain(22),
            Refusal::NoTotal => plain(23),
        }
    }

    /// One line for a person to read.
    pub fn words(&self) -> &'static str
        ensures { result.now ≡ words_of self.now }
    {
        match *self {
            Refusal::SegmentNumber => "segment number above 63",
            Refusal::QuarterHour => "quarter hour past the end of the day",
            Refusal::Reading => "reading above 1,000,000 Wh",
            Refusal::SiteNumber => "site number above 15",
            Refusal::Figure => "generation figure outside -10,000,000 to 10,000,000 Wh",
            Refusal::SegmentField => "QSE, settlement point, loss code or mark out of range",
            Refusal::DayLength => "a day has 92, 96 or 100 quarter hours",
            Refusal::Factor => "loss factor above 500,000, or its code not A to E",
            Refusal::ListLength => "list of the wrong length",
            Refusal::ProfileLimit =>
                "profiled reading, profile total or profile weight out of range",
            Refusal::ProfileTotal => "the day's profile weights run past the profile total",
            Refusal::ProfiledQuarterHour => "a profiled quarter hour above 1,000,000 Wh",
            Refusal::AlreadyOnRoll => "number already on the roll",
            Refusal::NotOnRoll { .. } => "segment or site not on the roll",
            Refusal::NoPlace => "no place left in the load book",
            Refusal::NothingStands => "nothing stands there to be taken back",
            Refusal::EmptyRoll => "no segment on the roll",
            Refusal::NoReading { .. } => "a segment has no reading",
            Refusal::NoFactor { .. } => "a segment has no loss factor",
            Refusal::LoadTooLarge { .. } => "a segment's load above 4,000,000 Wh",
            Refusal::NoFigure { .. } => "a site has no generation figure",
            Refusal::NoWeight => "there is UFE, and no weighted load to carry it",
            Refusal::NoTotal => "the total of all loads is not positive",
        }
    }
}

/// Its words.
impl fmt::Display for Refusal {
    ghost output = { λ r. Some (words_of r) };

    fn fmt<W: fmt::Write>(&self, f: &mut fmt::Formatter<W>) -> fmt::Result {
        f.write_str(self.words())
    }
}
