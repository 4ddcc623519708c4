// What a table answers, and how a factor is given.
ghost use Rattle.std.specs.Prelude.{◌≡◌, ◌<◌, Some};
ghost use Rattle.std.specs.Option.{unwrap_or};
ghost use Rattle.book.specs.Tables.{at, blank};
ghost use Rattle.losses.specs.Adjusting.{Small, given};
ghost use Rattle.losses.specs.Layers.{factor_answer, after_giving};

use crate::adjust::Loss;
use crate::table::FactorTable;
use refusal::Refusal;

impl<const ROWS: usize> FactorTable<ROWS> {
    /// A table in which no factor was given.
    pub fn empty() -> FactorTable<ROWS>
        ensures { at result.rows ≡ blank }
    {
        FactorTable {
            rows: [[None; 100]; ROWS],
        }
    }

    /// The loss by the factor of a row and a quarter hour, if it was given.
    pub(crate) fn loss(&self, row: usize, quarter_hour: u8) -> Loss
        requires { row < ROWS }
        ensures loss { result ≡ given (at self.now.rows row quarter_hour) }
        ensures small { Small result }
    {
        let factors = &self.rows[row];
        match factors.get(quarter_hour as usize) {
            Some(Some(factor)) => Loss::Factor(*factor),
            _ => Loss::Missing,
        }
    }

    /// Gives the factor of a row, if there is one, and a quarter hour; or says why it does not. The
    /// last one given counts.
    pub(crate) fn give(
        &mut self,
        row: Option<usize>,
        quarter_hour: u8,
        factor: u32,
    ) -> Result<(), Refusal>
        requires row { unwrap_or row 0 < ROWS }
        ensures answer { result ≡ factor_answer row quarter_hour factor }
        ensures factors { at self.new.rows ≡ after_giving result row quarter_hour factor (at self.old.rows) }
    {
        if quarter_hour > 99 {
            return Err(Refusal::QuarterHour);
        }
        if factor > 500_000 {
            return Err(Refusal::Factor);
        }
        let Some(row) = row else {
            return Err(Refusal::Factor);
        };
        self.rows[row][quarter_hour as usize] = Some(factor);
        Ok(())
    }
}
