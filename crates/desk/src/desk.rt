// The desk in each of its states: before the first day, on a draft, on an opened day. Each reads lines
// until its state ends, and hands on what the next one starts from, or nothing at the input's end.
ghost use Rattle.std.specs.Prelude.{◌≡◌};
ghost use Rattle.run.specs.Courses.{answer_to, stepped};
ghost use Rattle.run.specs.Holding.{setting_of_any, course_of_any, state_of};
ghost use Rattle.desk.specs.Judging.{call_of, course_after, answer_in, reply_of};

use crate::input::Lines;
use crate::line::Line;
use crate::order;
use crate::order::{Order, Request};
use crate::place::Place;
use crate::reply::{Rejection, Reply, Untaken, reply_to};
use crate::setup::Setup;
use book::LoadBook;
use day::Day;
use roll::Draft;
use run::{AnyDay, Call, Entry};
use std::io;
use std::io::Write;

fn say(rt: &impl Print, place: Place, answer: Result<Reply, Rejection>) -> io::Result<()> {
    match answer {
        Ok(reply) => println!(rt; "{place}{reply}"),
        Err(rejection) => println!(rt; "{place}{rejection}"),
    }
}

/// What a line asks for. One that is not understood is answered here.
fn understood(rt: &impl Print, line: &Line) -> io::Result<Option<Request>> {
    let request = order::read(line);
    if request.is_none() {
        say(rt, Place::default(), Err(Rejection::Unknown))?;
    }
    Ok(request)
}

/// The day that a line begins, or nothing where it is refused.
fn begun(rt: &impl Print, place: Place, quarter_hours: u8) -> io::Result<Option<Setup>> {
    match Setup::begin(quarter_hours) {
        Ok(setup) => {
            say(rt, place, Ok(Reply::Begun { quarter_hours }))?;
            Ok(Some(setup))
        }
        Err(refusal) => {
            say(rt, place, Err(Rejection::Refused(refusal)))?;
            Ok(None)
        }
    }
}

/// One call on an opened day.
fn call<B: LoadBook + Drop>(day: AnyDay<B>, call: &Call) -> (AnyDay<B>, Result<Reply, Rejection>)
    ensures course { course_of_any B.LoadBook result.0 ≡ stepped (setting_of_any B.LoadBook day) (course_of_any B.LoadBook day) call.now }
    ensures setting { setting_of_any B.LoadBook result.0 ≡ setting_of_any B.LoadBook day }
    ensures reply { result.1 ≡ reply_of (state_of day) (answer_to (setting_of_any B.LoadBook day) (course_of_any B.LoadBook day) call.now) }
{
    let state = day.state();
    let (next, answer) = day.step(call);
    (next, reply_to(&answer, state))
}

/// One line on an opened day, other than `day`. What is no call of a day belongs to a draft.
fn respond<B: LoadBook + Drop>(
    day: AnyDay<B>,
    order: &Order,
    weights: &[u32],
) -> (AnyDay<B>, Result<Reply, Rejection>)
    ensures course { course_of_any B.LoadBook result.0 ≡ course_after (setting_of_any B.LoadBook day) (course_of_any B.LoadBook day) (call_of order.now weights.entry) }
    ensures setting { setting_of_any B.LoadBook result.0 ≡ setting_of_any B.LoadBook day }
    ensures reply { result.1 ≡ reply_of (state_of day) (answer_in (setting_of_any B.LoadBook day) (course_of_any B.LoadBook day) (call_of order.now weights.entry)) }
{
    match *order {
        Order::Call(asked) => call(day, &asked),
        Order::Profile { segment, reading } => {
            let profiled = Entry::PostProfiled {
                segment,
                reading,
                weights,
            };
            call(day, &Call::Entry(profiled))
        }
        _ => {
            let state = day.state();
            (day, Err(Rejection::Unlawful(Untaken::State(state))))
        }
    }
}

/// The desk, with what it writes to and what it reads.
#[derive(Drop)]
pub struct Desk<'a, R> {
    rt: &'a R,
    lines: Lines,
}

impl<'a, R: Print> Desk<'a, R> {
    pub fn new(rt: &'a R, lines: Lines) -> Desk<'a, R> {
        Desk { rt, lines }
    }

    /// Before the first day.
    pub fn wait(&mut self) -> io::Result<Option<Setup>> {
        for _ in 0..u64::MAX {
            if !self.lines.read()? {
                return Ok(None);
            }
            let Some(request) = understood(self.rt, self.lines.line())? else {
                continue;
            };
            let place = request.place(false);
            match request.order {
                Order::Day { quarter_hours } => {
                    if let Some(setup) = begun(self.rt, place, quarter_hours)? {
                        return Ok(Some(setup));
                    }
                }
                _ => say(self.rt, place, Err(Rejection::Unlawful(Untaken::NoDay)))?,
            }
        }
        Ok(None)
    }

    /// On a draft, until its day is to be opened.
    pub fn draft(&mut self, begun: Setup) -> io::Result<Option<Setup>> {
        let mut setup = begun;
        for _ in 0..u64::MAX {
            if !self.lines.read()? {
                return Ok(None);
            }
            let Some(request) = understood(self.rt, self.lines.line())? else {
                continue;
            };
            let place = request.place(setup.has_clock());
            if let Order::Open = request.order {
                say(self.rt, place, Ok(Reply::Opened))?;
                return Ok(Some(setup));
            }
            let answer = setup.take(&request.order);
            say(self.rt, place, answer)?;
        }
        Ok(None)
    }

    /// Opens the day of a draft over a book, under its layers, and goes on until another is begun.
    pub fn open<B: LoadBook + Drop>(&mut self, setup: Setup, book: B) -> io::Result<Option<Setup>> {
        let has_clock = setup.has_clock();
        let Setup { draft, layers, .. } = setup;
        self.serve(draft, layers.over(book), has_clock)
    }

    /// On an opened day, until another is begun.
    fn serve<B: LoadBook + Drop>(
        &mut self,
        draft: Draft,
        book: B,
        has_clock: bool,
    ) -> io::Result<Option<Setup>> {
        let mut day = AnyDay::OpenInitial(Day::open(draft, book));
        for _ in 0..u64::MAX {
            if !self.lines.read()? {
                return Ok(None);
            }
            let Some(request) = understood(self.rt, self.lines.line())? else {
                continue;
            };
            let place = request.place(has_clock);
            match request.order {
                Order::Day { quarter_hours } => {
                    if let Some(setup) = begun(self.rt, place, quarter_hours)? {
                        return Ok(Some(setup));
                    }
                }
                Order::Statement { quarter_hour } => {
                    tell_statement(self.rt, &day, place, quarter_hour)?;
                }
                order => {
                    let weights = order::weights(self.lines.line());
                    let (next, answer) = respond(day, &order, &weights);
                    day = next;
                    say(self.rt, place, answer)?;
                }
            }
        }
        Ok(None)
    }
}

/// Answers with the statement of a quarter hour, and writes its text behind the answer.
fn tell_statement<B: LoadBook + Drop>(
    rt: &impl Print,
    day: &AnyDay<B>,
    place: Place,
    quarter_hour: u8,
) -> io::Result<()> {
    let mut text = [0; 2_048];
    match day.statement(quarter_hour, &mut text) {
        Ok(bytes) => {
            say(rt, place, Ok(Reply::Statement { bytes }))?;
            io::writer(rt).write_all(text.get(..bytes).unwrap_or(&text))
        }
        Err(refusal) => say(rt, place, Err(Rejection::Refused(refusal))),
    }
}
