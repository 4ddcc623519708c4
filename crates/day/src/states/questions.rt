// What a day answers of one of its quarter hours, in every state.
ghost use Rattle.std.specs.Prelude.{◌≡◌, true, length as length_of, pos, is_ok, if◌then◌else◌};
ghost use Rattle.split.specs.Parts.{sum_of};
ghost use Rattle.balance.specs.Laws.{Balanced};
ghost use Rattle.statement.specs.Law.{LeavesNothingOut};
ghost use Rattle.day.specs.Holding.{day_setting, day_slate, day_quarter, day_sheet, AskedOf};
ghost use Rattle.day.specs.Questions.{loads_at, loads_answer, rtaml_answer, ufe_answer, shares_at, shares_answer, statement_over, statement_answer};

use crate::states::Day;
use balance::{QuarterHour, Ufe};
use book::LoadBook;
use refusal::Refusal;
use statement::write_statement;

impl<B: LoadBook + Drop, S: Drop> Day<B, S> {
    /// One of the day's quarter hours, with all that its questions are answered from.
    fn quarter_hour(&self, quarter_hour: u8) -> Result<QuarterHour<B>, Refusal>
        ensures { AskedOf B.LoadBook self.now quarter_hour result }
    {
        self.has(quarter_hour)?;
        Ok(QuarterHour {
            roll: &self.roll,
            book: &self.book,
            figures: &self.figures,
            quarter_hour,
        })
    }

    // Here too each question has the law in a clause of its own.
    /// The adjusted load of each segment into a list of 64, 0 off the roll.
    pub fn adjusted_loads(&self, quarter_hour: u8, list: &mut [i64]) -> Result<(), Refusal>
        ensures answer { result ≡ loads_answer (day_setting B.LoadBook self.now) (day_slate B.LoadBook self.now) quarter_hour (length_of list.old) }
        ensures after { list.new ≡ (if is_ok result then loads_at (day_setting B.LoadBook self.now) (day_slate B.LoadBook self.now) quarter_hour else list.old) }
        ensures adds_up { is_ok result ≡ true → sum_of list.new ≡ (day_sheet B.LoadBook self.now quarter_hour).generation }
        ensures law { is_ok result ≡ true → Balanced (day_sheet B.LoadBook self.now quarter_hour) }
    {
        self.quarter_hour(quarter_hour)?.adjusted_loads(list)
    }

    /// RTAML of a QSE at a settlement point, 0 where it has no segment there.
    pub fn rtaml(&self, quarter_hour: u8, qse: u8, point: u8) -> Result<i64, Refusal>
        ensures answer { result ≡ rtaml_answer (day_setting B.LoadBook self.now) (day_slate B.LoadBook self.now) quarter_hour qse point }
        ensures law { is_ok result ≡ true → Balanced (day_sheet B.LoadBook self.now quarter_hour) }
    {
        self.quarter_hour(quarter_hour)?.rtaml(qse, point)
    }

    /// What was generated, and what of it is not accounted for.
    pub fn generation_and_ufe(&self, quarter_hour: u8) -> Result<Ufe, Refusal>
        ensures answer { result ≡ ufe_answer (day_setting B.LoadBook self.now) (day_slate B.LoadBook self.now) quarter_hour }
        ensures law { is_ok result ≡ true → Balanced (day_sheet B.LoadBook self.now quarter_hour) }
    {
        self.quarter_hour(quarter_hour)?.generation_and_ufe()
    }

    /// The load ratio share of each QSE, in billionths, into a list of 16.
    pub fn shares(&self, quarter_hour: u8, list: &mut [i64]) -> Result<(), Refusal>
        ensures answer { result ≡ shares_answer (day_setting B.LoadBook self.now) (day_slate B.LoadBook self.now) quarter_hour (length_of list.old) }
        ensures after { list.new ≡ (if is_ok result then shares_at (day_setting B.LoadBook self.now) (day_slate B.LoadBook self.now) quarter_hour else list.old) }
        ensures adds_up { is_ok result ≡ true → sum_of list.new ≡ pos 1000000000 }
        ensures law { is_ok result ≡ true → Balanced (day_sheet B.LoadBook self.now quarter_hour) }
    {
        self.quarter_hour(quarter_hour)?.shares(list)
    }

    /// The quarter hour as text, into a list of 2,048 bytes. Answers how many bytes were written; a
    /// quarter hour without answers is told as such in the text.
    pub fn statement(&self, quarter_hour: u8, text: &mut [u8]) -> Result<usize, Refusal>
        ensures answer { result ≡ statement_answer (day_setting B.LoadBook self.now) (day_slate B.LoadBook self.now) quarter_hour (length_of text.old) }
        ensures after { text.new ≡ (if is_ok result then statement_over (day_setting B.LoadBook self.now) (day_slate B.LoadBook self.now) quarter_hour text.old else text.old) }
        ensures law { LeavesNothingOut (day_quarter B.LoadBook self.now quarter_hour) }
    {
        write_statement(&self.quarter_hour(quarter_hour)?, text)
    }
}
