// The answers in words. The words of no answer hold ` = `, which parts them from the script's half.
use crate::reply::{Rejection, Reply, Untaken};
use balance::Ufe;
use refusal::{Answer, Refusal};
use run::DayState;
use std::fmt;

impl fmt::Display for Untaken {
    fn fmt<W: fmt::Write>(&self, f: &mut fmt::Formatter<W>) -> fmt::Result {
        f.write_str(match *self {
            Untaken::NoDay => "no day is begun",
            Untaken::Draft => "the day is not open yet",
            Untaken::FourLayers => "there are four layers already",
            Untaken::State(DayState::OpenInitial) => "the day is open",
            Untaken::State(DayState::SealedInitial) => "the day is sealed as initial",
            Untaken::State(DayState::OpenFinal) => "the day is open as final",
            Untaken::State(DayState::SealedFinal) => "the day is sealed as final",
        })
    }
}

/// A refusal, with the segment or site at fault where it names one that the line does not.
fn refused<W: fmt::Write>(refusal: Refusal, f: &mut fmt::Formatter<W>) -> fmt::Result {
    write!(f, "sent back, {refusal}")?;
    match refusal {
        Refusal::NoReading { segment, height }
        | Refusal::NoFactor { segment, height }
        | Refusal::LoadTooLarge { segment, height } => {
            write!(f, ", segment {segment} at height {height}")?;
        }
        Refusal::NoFigure { site } => write!(f, ", site {site}")?,
        _ => {}
    }
    let Answer {
        number,
        subject,
        height,
    } = refusal.answer();
    write!(f, " = refused {number} {subject} {height}")
}

impl fmt::Display for Rejection {
    fn fmt<W: fmt::Write>(&self, f: &mut fmt::Formatter<W>) -> fmt::Result {
        match *self {
            Rejection::Unknown => write!(f, "not understood = unknown"),
            Rejection::NoLayer => write!(f, "there is no such layer of this kind = unknown"),
            Rejection::Unlawful(untaken) => write!(f, "not taken, {untaken} = unlawful"),
            Rejection::Refused(refusal) => refused(refusal, f),
        }
    }
}

fn list<W: fmt::Write>(numbers: &[i64], f: &mut fmt::Formatter<W>) -> fmt::Result {
    for number in numbers {
        write!(f, " {number}")?;
    }
    Ok(())
}

impl fmt::Display for Reply {
    fn fmt<W: fmt::Write>(&self, f: &mut fmt::Formatter<W>) -> fmt::Result {
        match self {
            Reply::Begun { quarter_hours } => {
                write!(f, "a day of {quarter_hours} quarter hours is begun = ok")
            }
            Reply::OnRoll => write!(f, "on the roll = ok"),
            Reply::Grid => write!(f, "the readings will stand in a grid = ok"),
            Reply::Slips { records } => {
                write!(
                    f,
                    "the readings will stand in a slip book with room for {records} = ok"
                )
            }
            Reply::Distribution { layer } => {
                write!(
                    f,
                    "layer {layer} is put on top, for distribution losses = ok"
                )
            }
            Reply::Transmission { layer } => {
                write!(
                    f,
                    "layer {layer} is put on top, for transmission losses = ok"
                )
            }
            Reply::FactorGiven => write!(f, "the loss factor is given = ok"),
            Reply::CodesTakenOver => write!(f, "the loss codes of the roll are taken over = ok"),
            Reply::Opened => write!(f, "the day is open = ok"),
            Reply::Sealed => write!(f, "the day is sealed = ok"),
            Reply::Reopened => write!(f, "the day is open again, as final = ok"),
            Reply::Posted(None) => write!(f, "the reading is posted, none stood before = ok none"),
            Reply::Posted(Some(before)) => {
                write!(
                    f,
                    "the reading is corrected, {before} Wh stood before = ok {before}"
                )
            }
            Reply::Profiled(before) => {
                write!(
                    f,
                    "the day's readings are posted, {before} of them are corrections = ok {before}"
                )
            }
            Reply::Withdrawn(reading) => {
                write!(f, "the reading of {reading} Wh is withdrawn = ok {reading}")
            }
            Reply::Figured(None) => write!(f, "the figure is entered, none stood before = ok none"),
            Reply::Figured(Some(before)) => {
                write!(
                    f,
                    "the figure is corrected, {before} Wh stood before = ok {before}"
                )
            }
            Reply::Struck(figure) => write!(f, "the figure of {figure} Wh is struck = ok {figure}"),
            Reply::Loads(numbers) => {
                write!(f, "the adjusted loads of segments 0 to 63 in Wh = ok")?;
                list(numbers, f)
            }
            Reply::Rtaml(wh) => write!(f, "RTAML is {wh} Wh = ok {wh}"),
            Reply::GenerationAndUfe(Ufe { generation, ufe }) => {
                write!(
                    f,
                    "generation is {generation} Wh, UFE {ufe} Wh = ok {generation} {ufe}"
                )
            }
            Reply::Shares(numbers) => {
                write!(f, "the shares of QSEs 0 to 15 in billionths = ok")?;
                list(numbers, f)
            }
            Reply::Statement { bytes } => {
                write!(
                    f,
                    "the statement has {bytes} bytes, and follows = ok {bytes}"
                )
            }
        }
    }
}
