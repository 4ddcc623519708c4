// How a distribution table is filled, and what it makes of a load.
ghost use Rattle.std.specs.Prelude.{◌≡◌, ◌≤◌, map, replicate, None, slice_index_or};
ghost use Rattle.std.specs.Option.{unwrap_or};
ghost use Rattle.roll.specs.Entries.{rows_of};
ghost use Rattle.roll.specs.Marks.{code_of};
ghost use Rattle.book.specs.Tables.{at, blank};
ghost use Rattle.losses.specs.Adjusting.{Small};
ghost use Rattle.losses.specs.Bounds.{adjusted_bounded};
ghost use Rattle.losses.specs.Layers.{distributed_cell, row_of_code, letter_row, loss_by_code, roll_code, factor_answer, after_giving};

use crate::adjust::{Loss, adjust};
use crate::adjusted::Adjustment;
use crate::distribution::DistributionTable;
use crate::table::FactorTable;
use refusal::Refusal;
use roll::{LossCode, Roll, Row};

/// The row of the table that a code's factors stand in. A segment at transmission voltage has no
/// distribution loss, and its code no row.
fn row_of(code: LossCode) -> Option<usize>
    ensures row { result ≡ row_of_code code }
    ensures within { unwrap_or result 0 ≤ 4 }
{
    match code {
        LossCode::A => Some(0),
        LossCode::B => Some(1),
        LossCode::C => Some(2),
        LossCode::D => Some(3),
        LossCode::E => Some(4),
        LossCode::T => None,
    }
}

/// The code that a letter stands for, if it is one of the six.
fn code_of_letter(letter: u8) -> Option<LossCode>
    ensures { result ≡ code_of letter }
{
    LossCode::try_from(letter).ok()
}

/// The row of the table that a letter names, if it is one of A to E.
fn row_of_letter(letter: u8) -> Option<usize>
    ensures row { result ≡ letter_row (code_of letter) }
    ensures within { unwrap_or result 0 ≤ 4 }
{
    row_of(code_of_letter(letter)?)
}

/// The code in a place of the roll, or none.
fn code_in(row: Option<Row>) -> Option<LossCode>
    ensures { result ≡ roll_code row }
{
    code_of_letter(row?.code)
}

/// The codes of the whole roll.
fn codes_of(roll: &Roll) -> [Option<LossCode>; 64]
    ensures { result ≡ map roll_code (rows_of roll.now) }
{
    let mut codes = [None; 64];
    for (segment, row) in roll.rows().iter().enumerate() {
        // by index, since what a walk by `iter_mut` beside another writes is not known to a proof;
        // of `map` on an array a proof knows that its closure was run, and not in which state
        codes[segment] = code_in(*row);
    }
    codes
}

impl DistributionTable {
    /// No factor is given, and no code taken over.
    pub fn empty() -> DistributionTable
        ensures codes { result.codes ≡ replicate 64 None }
        ensures factors { at result.factors.rows ≡ blank }
    {
        DistributionTable {
            factors: FactorTable::empty(),
            codes: [None; 64],
        }
    }

    /// Gives the factor of a code's letter and a quarter hour, in millionths. The last one given counts.
    pub fn set_factor(&mut self, letter: u8, quarter_hour: u8, factor: u32) -> Result<(), Refusal>
        ensures answer { result ≡ factor_answer (letter_row (code_of letter)) quarter_hour factor }
        ensures codes { self.new.codes ≡ self.old.codes }
        ensures factors { at self.new.factors.rows ≡ after_giving result (letter_row (code_of letter)) quarter_hour factor (at self.old.factors.rows) }
    {
        self.factors
            .give(row_of_letter(letter), quarter_hour, factor)
    }

    /// Takes over the loss codes of a roll, all at once. A segment that is not on it has none.
    pub fn take_over_codes(&mut self, roll: &Roll)
        ensures codes { self.new.codes ≡ map roll_code (rows_of roll.now) }
        ensures factors { self.new.factors ≡ self.old.factors }
    {
        self.codes = codes_of(roll);
    }

    /// What a segment loses in a quarter hour, by the code that was taken over for it.
    fn loss(&self, segment: u8, quarter_hour: u8) -> Loss
        ensures loss { result ≡ loss_by_code (at self.now.factors.rows) quarter_hour (slice_index_or self.now.codes segment None) }
        ensures small { Small result }
    {
        match self.codes.get(segment as usize) {
            Some(Some(code)) => match row_of(*code) {
                Some(row) => self.factors.loss(row, quarter_hour),
                None => Loss::Unchanged,
            },
            _ => Loss::Missing,
        }
    }
}

impl Adjustment for DistributionTable {
    ghost adjusted = { λ t. distributed_cell t.codes (at t.factors.rows) };

    ghost bounded = { λ t s q. adjusted_bounded (loss_by_code (at t.factors.rows) q (slice_index_or t.codes s None)) };

    fn gross(
        &self,
        below: Result<u32, Refusal>,
        segment: u8,
        quarter_hour: u8,
    ) -> Result<u32, Refusal> {
        let loss = self.loss(segment, quarter_hour);
        adjust(below, loss, segment)
    }
}
