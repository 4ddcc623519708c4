// A lively day on any book, done as one list of calls and told call by call.
use crate::calls;
use crate::calls::CALLS;
use book::LoadBook;
use refusal::Refusal;
use roll::{Draft, Row};
use run::{Answer, Call, run_day};
use std::io;

// The rows stand in the programs of the four segments and of the walk too: each is read by itself.
const HOUSEHOLD: Row = Row {
    qse: 1,
    point: 0,
    code: b'A',
    meter: 1,
    noie: 0,
};

const WORKSHOP: Row = Row {
    qse: 2,
    point: 0,
    code: b'B',
    meter: 0,
    noie: 0,
};

const MILL: Row = Row {
    qse: 1,
    point: 1,
    code: b'T',
    meter: 0,
    noie: 0,
};

/// Three segments and two sites.
pub fn draft(quarter_hours: u8) -> Result<Draft, Refusal> {
    let mut draft = Draft::begin(quarter_hours)?;
    draft.segment(0, &HOUSEHOLD)?;
    draft.segment(1, &WORKSHOP)?;
    draft.segment(2, &MILL)?;
    draft.site(0)?;
    draft.site(1)?;
    Ok(draft)
}

/// Why the telling of a day ends early.
#[derive(Drop)]
pub enum Stop {
    Refused(Refusal),
    Unprinted(io::Error),
}

impl From<Refusal> for Stop {
    fn from(refusal: Refusal) -> Stop {
        Stop::Refused(refusal)
    }
}

impl From<io::Error> for Stop {
    fn from(error: io::Error) -> Stop {
        Stop::Unprinted(error)
    }
}

/// Does a list of calls on a day of the draft, and tells them.
pub fn tell_run<B: LoadBook + Drop>(
    rt: &HostRuntime,
    draft: Draft,
    book: B,
    calls: &[Call],
    answers: &mut [Answer],
) -> Result<(), Stop> {
    // By matches where a day or a pile is handed on, here and beside: a combinator moves it once more,
    // and the back end takes minutes over moves of values as large.
    let lawful = match run_day(draft, book, calls, answers) {
        Ok(run) => run.lawful,
        Err(unopened) => return Err(Stop::Refused(unopened.refusal)),
    };
    for (call, answer) in calls.iter().zip(answers.iter()) {
        println!(rt; "- {call}: {answer}.")?;
    }
    if lawful {
        println!(rt; "The day's state took every call.")?;
    } else {
        println!(rt; "The day's state did not take every call.")?;
    }
    Ok(())
}

pub fn live<B: LoadBook + Drop>(rt: &HostRuntime, draft: Draft, book: B) -> Result<(), Stop> {
    let ones = [1u32; 100];
    let quarter_hours = draft.length().quarter_hours();
    let weights = &ones[0..usize::from(quarter_hours)];
    let calls = calls::of_the_day(quarter_hours.saturating_sub(1), weights);
    let mut answers = [Answer::Unlawful; CALLS];
    tell_run(rt, draft, book, &calls, &mut answers)
}

/// Ends the telling of a day: of one that was refused it tells why.
pub fn end(rt: &HostRuntime, told: Result<(), Stop>) -> io::Result<()> {
    match told {
        Ok(()) => Ok(()),
        Err(Stop::Refused(refusal)) => {
            // the number first, and then the words
            let number = refusal.answer().number;
            println!(rt; "Sent back with refusal {number}, {refusal}.")
        }
        Err(Stop::Unprinted(error)) => Err(error),
    }
}
