// What a line is answered: words for the person, and after ` = ` the answer for a script.
ghost use Rattle.std.specs.Prelude.{◌≡◌};
ghost use Rattle.desk.specs.declared.reply.Rejection.TheVariants.{Refused, Unlawful};
ghost use Rattle.desk.specs.Judging.{reply_of};

use balance::Ufe;
use refusal::Refusal;
use run::{Answer, DayState};

/// Why a line is not taken, as things are.
#[derive(Clone, Copy)]
pub enum Untaken {
    NoDay,
    Draft,
    FourLayers,
    State(DayState),
}

/// Why a line is not answered with `ok`. It has changed nothing.
#[derive(Clone, Copy)]
pub enum Rejection {
    Unknown,
    /// No layer of the kind that is meant has the number.
    NoLayer,
    Unlawful(Untaken),
    Refused(Refusal),
}

impl From<Untaken> for Rejection {
    ghost from_gives = { λ untaken rejection. rejection ≡ Unlawful untaken };

    fn from(untaken: Untaken) -> Rejection {
        Rejection::Unlawful(untaken)
    }
}

impl From<Refusal> for Rejection {
    ghost from_gives = { λ refusal rejection. rejection ≡ Refused refusal };

    fn from(refusal: Refusal) -> Rejection {
        Rejection::Refused(refusal)
    }
}

/// What was done, or what stands.
// Some of the cases are those of a day's answer, without its refusal and with the words of the desk.
#[derive(Clone, Copy)]
pub enum Reply {
    // on a draft
    Begun { quarter_hours: u8 },
    OnRoll,
    Grid,
    Slips { records: usize },
    Distribution { layer: usize },
    Transmission { layer: usize },
    FactorGiven,
    CodesTakenOver,
    Opened,
    // on a day
    Sealed,
    Reopened,
    Posted(Option<u32>),
    Profiled(u32),
    Withdrawn(u32),
    Figured(Option<i32>),
    Struck(i32),
    Loads([i64; 64]),
    Rtaml(i64),
    GenerationAndUfe(Ufe),
    Shares([i64; 16]),
    /// The text follows, with so many bytes.
    Statement { bytes: usize },
}

/// A day's answer. One that is done was a reopening on a day sealed as initial, and else a seal.
pub fn reply_to(answer: &Answer, before: DayState) -> Result<Reply, Rejection>
    ensures { result ≡ reply_of before answer.now }
{
    match *answer {
        Answer::Unlawful => Err(Rejection::Unlawful(Untaken::State(before))),
        Answer::Done => match before {
            DayState::SealedInitial => Ok(Reply::Reopened),
            _ => Ok(Reply::Sealed),
        },
        Answer::Posted(before) => Ok(Reply::Posted(before?)),
        Answer::Profiled(corrections) => Ok(Reply::Profiled(corrections?)),
        Answer::Withdrawn(reading) => Ok(Reply::Withdrawn(reading?)),
        Answer::Figured(before) => Ok(Reply::Figured(before?)),
        Answer::Struck(figure) => Ok(Reply::Struck(figure?)),
        Answer::AdjustedLoads(loads) => Ok(Reply::Loads(loads?)),
        Answer::Rtaml(rtaml) => Ok(Reply::Rtaml(rtaml?)),
        Answer::GenerationAndUfe(ufe) => Ok(Reply::GenerationAndUfe(ufe?)),
        Answer::Shares(shares) => Ok(Reply::Shares(shares?)),
    }
}
