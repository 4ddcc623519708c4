// How a transmission table is filled, and what it makes of a load.
ghost use Rattle.std.specs.Prelude.{◌≡◌, Some};
ghost use Rattle.book.specs.Tables.{at, blank};
ghost use Rattle.losses.specs.Adjusting.{given};
ghost use Rattle.losses.specs.Bounds.{adjusted_bounded};
ghost use Rattle.losses.specs.Layers.{transmitted_cell, factor_answer, after_giving};

use crate::adjust::adjust;
use crate::adjusted::Adjustment;
use crate::table::FactorTable;
use crate::transmission::TransmissionTable;
use refusal::Refusal;

impl TransmissionTable {
    /// No factor is given.
    pub fn empty() -> TransmissionTable
        ensures { at result.factors.rows ≡ blank }
    {
        TransmissionTable {
            factors: FactorTable::empty(),
        }
    }

    /// Gives the factor of a quarter hour, in millionths. The last one given counts.
    pub fn set_factor(&mut self, quarter_hour: u8, factor: u32) -> Result<(), Refusal>
        ensures answer { result ≡ factor_answer (Some 0) quarter_hour factor }
        ensures factors { at self.new.factors.rows ≡ after_giving result (Some 0) quarter_hour factor (at self.old.factors.rows) }
    {
        self.factors.give(Some(0), quarter_hour, factor)
    }
}

// As for the other table, but for the loss that is looked up.
impl Adjustment for TransmissionTable {
    ghost adjusted = { λ t. transmitted_cell (at t.factors.rows) };

    ghost bounded = { λ t s q. adjusted_bounded (given (at t.factors.rows 0 q)) };

    fn gross(
        &self,
        below: Result<u32, Refusal>,
        segment: u8,
        quarter_hour: u8,
    ) -> Result<u32, Refusal> {
        let loss = self.factors.loss(0, quarter_hour);
        adjust(below, loss, segment)
    }
}
