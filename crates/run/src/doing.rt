// One entry or one question, done by the day's own call for it.
ghost use Rattle.std.specs.Prelude.{◌≡◌};
ghost use Rattle.balance.specs.Questions.{ok_unless};
ghost use Rattle.day.specs.Entries.{why_not};
ghost use Rattle.day.specs.Holding.{day_setting, day_slate, Holds};
ghost use Rattle.run.specs.Calls.{entry_answer, entered, question_answer};

use crate::call::{Answer, Entry, Question};
use book::LoadBook;
use day::{Day, Open};
use refusal::Refusal;

pub(crate) fn enter<B: LoadBook + Drop, G: Drop>(day: &mut Day<B, Open<G>>, entry: &Entry) -> Answer
    ensures answer { result ≡ entry_answer (day_setting B.LoadBook day.old) (day_slate B.LoadBook day.old) entry.now }
    ensures after { Holds B.LoadBook day.new (day_setting B.LoadBook day.old) (entered (day_setting B.LoadBook day.old) (day_slate B.LoadBook day.old) entry.now) }
{
    match *entry {
        Entry::Post {
            segment,
            quarter_hour,
            reading,
        } => Answer::Posted(day.post(segment, quarter_hour, reading)),
        Entry::PostProfiled {
            segment,
            reading,
            weights,
        } => Answer::Profiled(day.post_profiled(segment, &reading, weights)),
        Entry::Withdraw {
            segment,
            quarter_hour,
        } => Answer::Withdrawn(day.withdraw(segment, quarter_hour)),
        Entry::Figure {
            site,
            quarter_hour,
            wh,
        } => Answer::Figured(day.figure(site, quarter_hour, wh)),
        Entry::Strike { site, quarter_hour } => Answer::Struck(day.strike(site, quarter_hour)),
    }
}

/// A list that was to be filled, where it was.
fn listed<const N: usize>(filled: Result<(), Refusal>, list: [i64; N]) -> Result<[i64; N], Refusal>
    ensures { result ≡ ok_unless (why_not filled) list.entry }
{
    filled?;
    Ok(list)
}

pub(crate) fn ask<B: LoadBook + Drop, S: Drop>(day: &Day<B, S>, question: &Question) -> Answer
    ensures { result ≡ question_answer (day_setting B.LoadBook day.now) (day_slate B.LoadBook day.now) question.now }
{
    match *question {
        Question::AdjustedLoads { quarter_hour } => {
            let mut loads = [0; 64];
            let filled = day.adjusted_loads(quarter_hour, &mut loads);
            Answer::AdjustedLoads(listed(filled, loads))
        }
        Question::Rtaml {
            quarter_hour,
            qse,
            point,
        } => Answer::Rtaml(day.rtaml(quarter_hour, qse, point)),
        Question::GenerationAndUfe { quarter_hour } => {
            Answer::GenerationAndUfe(day.generation_and_ufe(quarter_hour))
        }
        Question::Shares { quarter_hour } => {
            let mut shares = [0; 16];
            let filled = day.shares(quarter_hour, &mut shares);
            Answer::Shares(listed(filled, shares))
        }
    }
}
