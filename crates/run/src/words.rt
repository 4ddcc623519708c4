// The calls of a day and their answers in plain words, for a person to read. A sentence has no end of
// its own, so that a program can go on after it.
use crate::call::{Answer, Call, Entry, Question};
use refusal::Refusal;
use std::fmt;

impl fmt::Display for Call<'_> {
    fn fmt<W: fmt::Write>(&self, f: &mut fmt::Formatter<W>) -> fmt::Result {
        match self {
            Call::Entry(entry) => write!(f, "{entry}"),
            Call::Question(question) => write!(f, "{question}"),
            Call::Seal => f.write_str("seal the day"),
            Call::Reopen => f.write_str("reopen the day"),
        }
    }
}

impl fmt::Display for Entry<'_> {
    fn fmt<W: fmt::Write>(&self, f: &mut fmt::Formatter<W>) -> fmt::Result {
        match *self {
            Entry::Post {
                segment,
                quarter_hour,
                reading,
            } => write!(
                f,
                "post {reading} Wh for segment {segment}, quarter hour {quarter_hour}"
            ),
            Entry::PostProfiled {
                segment,
                reading,
                ..
            } => {
                let energy = reading.energy;
                write!(
                    f,
                    "spread {energy} Wh of a span of days over the quarter hours of segment {segment}"
                )
            }
            Entry::Withdraw {
                segment,
                quarter_hour,
            } => write!(
                f,
                "withdraw the reading of segment {segment}, quarter hour {quarter_hour}"
            ),
            Entry::Figure {
                site,
                quarter_hour,
                wh,
            } => write!(
                f,
                "enter {wh} Wh for site {site}, quarter hour {quarter_hour}"
            ),
            Entry::Strike { site, quarter_hour } => write!(
                f,
                "strike the figure of site {site}, quarter hour {quarter_hour}"
            ),
        }
    }
}

impl fmt::Display for Question {
    fn fmt<W: fmt::Write>(&self, f: &mut fmt::Formatter<W>) -> fmt::Result {
        match *self {
            Question::AdjustedLoads { quarter_hour } => {
                write!(f, "adjusted loads of quarter hour {quarter_hour}")
            }
            Question::Rtaml {
                quarter_hour,
                qse,
                point,
            } => write!(
                f,
                "RTAML of QSE {qse} at settlement point {point}, quarter hour {quarter_hour}"
            ),
            Question::GenerationAndUfe { quarter_hour } => {
                write!(f, "generation and UFE of quarter hour {quarter_hour}")
            }
            Question::Shares { quarter_hour } => {
                write!(f, "load ratio shares of quarter hour {quarter_hour}")
            }
        }
    }
}

impl fmt::Display for Answer {
    fn fmt<W: fmt::Write>(&self, f: &mut fmt::Formatter<W>) -> fmt::Result {
        match self {
            Answer::Unlawful => f.write_str("not taken, in the state that the day is in"),
            Answer::Done => f.write_str("done"),
            Answer::Posted(Ok(before)) => write_before(f, before),
            Answer::Profiled(Ok(had)) => write!(f, "taken, {had} of them had a reading before"),
            Answer::Withdrawn(Ok(reading)) => write!(f, "withdrawn, {reading} Wh"),
            Answer::Figured(Ok(before)) => write_before(f, before),
            Answer::Struck(Ok(figure)) => write!(f, "struck, {figure} Wh"),
            Answer::AdjustedLoads(Ok(loads)) => write_numbers(f, "segment", loads),
            Answer::Rtaml(Ok(wh)) => write!(f, "{wh} Wh"),
            Answer::GenerationAndUfe(Ok(energy)) => {
                let generation = energy.generation;
                let ufe = energy.ufe;
                write!(f, "{generation} Wh generated, {ufe} Wh unaccounted for")
            }
            Answer::Shares(Ok(shares)) => write_numbers(f, "QSE", shares),
            Answer::Posted(Err(refusal))
            | Answer::Profiled(Err(refusal))
            | Answer::Withdrawn(Err(refusal))
            | Answer::Figured(Err(refusal))
            | Answer::Struck(Err(refusal))
            | Answer::AdjustedLoads(Err(refusal))
            | Answer::Rtaml(Err(refusal))
            | Answer::GenerationAndUfe(Err(refusal))
            | Answer::Shares(Err(refusal)) => write_refusal(f, refusal),
        }
    }
}

/// What stood before, if anything did.
fn write_before<T: fmt::Display, W: fmt::Write>(
    f: &mut fmt::Formatter<W>,
    before: &Option<T>,
) -> fmt::Result {
    match before {
        None => f.write_str("taken"),
        Some(wh) => write!(f, "taken, in place of {wh} Wh"),
    }
}

/// The numbers of a list that are not 0, each by whose it is.
fn write_numbers<W: fmt::Write>(
    f: &mut fmt::Formatter<W>,
    whose: &str,
    numbers: &[i64],
) -> fmt::Result {
    let mut separator = "";
    for (i, number) in numbers.iter().enumerate() {
        if *number != 0 {
            write!(f, "{separator}{whose} {i} {number}")?;
            separator = ", ";
        }
    }
    if separator.is_empty() {
        f.write_str("0 for each")?;
    }
    Ok(())
}

// The number comes before the words, so both are asked of the refusal.
fn write_refusal<W: fmt::Write>(f: &mut fmt::Formatter<W>, refusal: &Refusal) -> fmt::Result {
    let number = refusal.answer().number;
    write!(f, "sent back with refusal {number}, {refusal}")
}
