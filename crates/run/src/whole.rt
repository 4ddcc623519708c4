// A whole run: a day is opened, and a list of calls is done on it.
ghost use Rattle.std.specs.Prelude.{◌≡◌};
ghost use Rattle.run.specs.Calls.{taken};
ghost use Rattle.run.specs.Law.{RunAs};

use crate::any_day::AnyDay;
use crate::call::{Answer, Call};
use book::LoadBook;
use day::Day;
use refusal::Refusal;
use roll::Draft;

/// The day as the calls left it.
#[derive(Drop)]
pub struct Run<B: LoadBook + Drop> {
    pub day: AnyDay<B>,
    /// Whether the day's state took every call.
    pub lawful: bool,
}

/// What a day was to be opened from, handed back: there is no place for every answer.
#[derive(Drop)]
pub struct Unopened<B: LoadBook + Drop> {
    pub draft: Draft,
    pub book: B,
    pub refusal: Refusal,
}

/// Whether the day's state took a call, by what it was answered.
fn is_taken(answer: &Answer) -> bool
    ensures { result ≡ taken answer.now }
{
    !matches!(answer, Answer::Unlawful)
}

/// Opens a day on a book, whatever stood there before, does the calls one after another, and writes
/// what each is answered into its place of a list as long. The law over the run is in the contract.
pub fn run_day<B: LoadBook + Drop>(
    draft: Draft,
    book: B,
    calls: &[Call],
    answers: &mut [Answer],
) -> Result<Run<B>, Unopened<B>>
    ensures { RunAs B.LoadBook draft book calls.now answers.old result answers.new }
{
    if answers.len() != calls.len() {
        return Err(Unopened {
            draft,
            book,
            refusal: Refusal::ListLength,
        });
    }
    let mut day = AnyDay::OpenInitial(Day::open(draft, book));
    let mut lawful = true;
    for (i, call) in calls.iter().enumerate() {
        let (next, answer) = day.step(call);
        day = next;
        lawful &= is_taken(&answer);
        // by index, since what a walk by `iter_mut` beside another writes is not known to a proof
        answers[i] = answer;
    }
    Ok(Run { day, lawful })
}
