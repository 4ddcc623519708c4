// The calls of a day as values, and what they are answered.
use balance::Ufe;
use profile::ProfiledReading;
use refusal::Refusal;

/// Something is entered, or taken back.
#[derive(Clone, Copy)]
pub enum Entry<'a> {
    Post {
        segment: u8,
        quarter_hour: u8,
        reading: u32,
    },
    /// The weights are the profile's for the quarter hours of this day.
    PostProfiled {
        segment: u8,
        reading: ProfiledReading,
        weights: &'a [u32],
    },
    Withdraw {
        segment: u8,
        quarter_hour: u8,
    },
    Figure {
        site: u8,
        quarter_hour: u8,
        wh: i32,
    },
    Strike {
        site: u8,
        quarter_hour: u8,
    },
}

/// Something is asked of a quarter hour.
#[derive(Clone, Copy)]
pub enum Question {
    AdjustedLoads {
        quarter_hour: u8,
    },
    Rtaml {
        quarter_hour: u8,
        qse: u8,
        point: u8,
    },
    GenerationAndUfe {
        quarter_hour: u8,
    },
    Shares {
        quarter_hour: u8,
    },
}

#[derive(Clone, Copy)]
pub enum Call<'a> {
    Entry(Entry<'a>),
    Question(Question),
    Seal,
    Reopen,
}

/// What a call is answered: each kind of call has its own kind of answer.
#[derive(Clone, Copy)]
pub enum Answer {
    /// The day's state does not take the call, which has changed nothing.
    Unlawful,
    /// The day was sealed, or reopened.
    Done,
    /// The reading that stood before, or none.
    Posted(Result<Option<u32>, Refusal>),
    /// How many quarter hours had a reading before.
    Profiled(Result<u32, Refusal>),
    /// The reading that stood.
    Withdrawn(Result<u32, Refusal>),
    /// The figure that stood before, or none.
    Figured(Result<Option<i32>, Refusal>),
    /// The figure that stood.
    Struck(Result<i32, Refusal>),
    AdjustedLoads(Result<[i64; 64], Refusal>),
    Rtaml(Result<i64, Refusal>),
    GenerationAndUfe(Result<Ufe, Refusal>),
    Shares(Result<[i64; 16], Refusal>),
}

/// The states of an opened day, one after the other.
#[derive(Clone, Copy, PartialEq, Eq, Debug)]
pub enum DayState {
    OpenInitial,
    SealedInitial,
    OpenFinal,
    SealedFinal,
}
