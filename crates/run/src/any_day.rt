// A day in whichever state it is in.
ghost use Rattle.std.specs.Prelude.{◌≡◌, length, is_ok, if◌then◌else◌};
ghost use Rattle.day.specs.Questions.{statement_over, statement_answer};
ghost use Rattle.run.specs.declared.call.Call.TheVariants.{Entry as entered, Question as asked, Seal, Reopen};
ghost use Rattle.run.specs.Courses.{answer_to};
ghost use Rattle.run.specs.Holding.{setting_of_any, slate_of_any, course_of_any, state_of, Steps};

use crate::call::{Answer, Call, DayState, Entry, Question};
use crate::doing::{ask, enter};
use book::LoadBook;
use day::{Day, Final, Initial, Open, Sealed};
use refusal::Refusal;

// Each state is a type of its own, so what days of every state do is one match over the four here. A
// macro could write the two matches that have the same call in each arm, and would be no plainer.
/// A day that has been opened, with its state.
#[derive(Drop)]
pub enum AnyDay<B: LoadBook + Drop> {
    OpenInitial(Day<B, Open<Initial>>),
    SealedInitial(Day<B, Sealed<Initial>>),
    OpenFinal(Day<B, Open<Final>>),
    SealedFinal(Day<B, Sealed<Final>>),
}

impl<B: LoadBook + Drop> AnyDay<B> {
    pub fn state(&self) -> DayState
        ensures { result ≡ state_of self.now }
    {
        match self {
            AnyDay::OpenInitial(_) => DayState::OpenInitial,
            AnyDay::SealedInitial(_) => DayState::SealedInitial,
            AnyDay::OpenFinal(_) => DayState::OpenFinal,
            AnyDay::SealedFinal(_) => DayState::SealedFinal,
        }
    }

    /// The statement of a quarter hour, which every day gives.
    pub fn statement(&self, quarter_hour: u8, text: &mut [u8]) -> Result<usize, Refusal>
        ensures answer { result ≡ statement_answer (setting_of_any B.LoadBook self.now) (slate_of_any B.LoadBook self.now) quarter_hour (length text.old) }
        ensures after { text.new ≡ (if is_ok result then statement_over (setting_of_any B.LoadBook self.now) (slate_of_any B.LoadBook self.now) quarter_hour text.old else text.old) }
    {
        match self {
            AnyDay::OpenInitial(day) => day.statement(quarter_hour, text),
            AnyDay::SealedInitial(day) => day.statement(quarter_hour, text),
            AnyDay::OpenFinal(day) => day.statement(quarter_hour, text),
            AnyDay::SealedFinal(day) => day.statement(quarter_hour, text),
        }
    }

    /// An entry, which only an open day takes.
    fn enter(&mut self, entry: &Entry) -> Answer
        ensures { Steps B.LoadBook self.old (entered entry.now) result self.new }
    {
        match self {
            AnyDay::OpenInitial(day) => enter(day, entry),
            AnyDay::OpenFinal(day) => enter(day, entry),
            AnyDay::SealedInitial(_) | AnyDay::SealedFinal(_) => Answer::Unlawful,
        }
    }

    /// A question, which every day takes.
    fn ask(&self, question: &Question) -> Answer
        ensures { result ≡ answer_to (setting_of_any B.LoadBook self.now) (course_of_any B.LoadBook self.now) (asked question.now) }
    {
        match self {
            AnyDay::OpenInitial(day) => ask(day, question),
            AnyDay::SealedInitial(day) => ask(day, question),
            AnyDay::OpenFinal(day) => ask(day, question),
            AnyDay::SealedFinal(day) => ask(day, question),
        }
    }

    /// Seals an open day.
    fn seal(self) -> (AnyDay<B>, Answer)
        ensures { Steps B.LoadBook self Seal result.1 result.0 }
    {
        match self {
            AnyDay::OpenInitial(day) => (AnyDay::SealedInitial(day.seal()), Answer::Done),
            AnyDay::OpenFinal(day) => (AnyDay::SealedFinal(day.seal()), Answer::Done),
            sealed => (sealed, Answer::Unlawful),
        }
    }

    /// Reopens a day that is sealed as initial.
    fn reopen(self) -> (AnyDay<B>, Answer)
        ensures { Steps B.LoadBook self Reopen result.1 result.0 }
    {
        match self {
            AnyDay::SealedInitial(day) => (AnyDay::OpenFinal(day.reopen()), Answer::Done),
            other => (other, Answer::Unlawful),
        }
    }

    /// One call. One that the day's state does not take is answered so, and changes nothing.
    pub fn step(mut self, call: &Call) -> (AnyDay<B>, Answer)
        ensures { Steps B.LoadBook self call.now result.1 result.0 }
    {
        match call {
            Call::Entry(entry) => {
                let answer = self.enter(entry);
                (self, answer)
            }
            Call::Question(question) => {
                let answer = self.ask(question);
                (self, answer)
            }
            Call::Seal => self.seal(),
            Call::Reopen => self.reopen(),
        }
    }
}
