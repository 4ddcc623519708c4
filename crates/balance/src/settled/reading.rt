// What is read off a balance.
ghost use Rattle.std.specs.Prelude.{◌≡◌, length, pos, is_ok, if◌then◌else◌, Some, None, int_lt, unsigned_abs};
ghost use Rattle.refusal.specs.declared.Refusal.TheVariants.{NoTotal};
ghost use Rattle.split.specs.Parts.{parts_of};
ghost use Rattle.book.specs.Tables.{cell};
ghost use Rattle.balance.specs.Questions.{ok_unless, misfit, nowhere};
ghost use Rattle.balance.specs.Totals.{or_else};

use crate::settled::Balance;
use refusal::Refusal;

/// One, in billionths.
const WHOLE: i32 = 1_000_000_000;

/// That there is such a QSE, and such a settlement point.
pub(crate) fn check_pair(qse: u8, point: u8) -> Result<(), Refusal>
    ensures { result ≡ ok_unless (nowhere qse point) tt }
{
    if qse > 15 || point > 7 {
        return Err(Refusal::SegmentField);
    }
    Ok(())
}

impl Balance {
    /// G, in Wh.
    pub fn generation(&self) -> i64
        ensures { result ≡ self.now.generation }
    {
        self.generation
    }

    /// U, in Wh.
    pub fn ufe(&self) -> i64
        ensures { result ≡ self.now.ufe }
    {
        self.ufe
    }

    /// The adjusted load of each segment into a list of 64.
    pub fn loads(&self, list: &mut [i64]) -> Result<(), Refusal>
        ensures answer { result ≡ ok_unless (misfit 64 (length list.old)) tt }
        ensures after { list.new ≡ (if is_ok result then self.now.adjusted else list.old) }
    {
        if list.len() != 64 {
            return Err(Refusal::ListLength);
        }
        list.copy_from_slice(&self.adjusted);
        Ok(())
    }

    /// RTAML of a QSE at a settlement point.
    pub fn rtaml(&self, qse: u8, point: u8) -> Result<i64, Refusal>
        ensures { result ≡ ok_unless (nowhere qse point) (cell (pos 0) self.now.pairs qse point) }
    {
        check_pair(qse, point)?;
        Ok(self.pairs[qse as usize][point as usize])
    }

    /// The load ratio share of each QSE, in billionths, into a list of 16.
    pub fn shares(&self, list: &mut [i64]) -> Result<(), Refusal>
        ensures answer { result ≡ ok_unless (or_else (misfit 16 (length list.old)) (if int_lt (pos 0) self.now.generation then None else Some NoTotal)) tt }
        ensures after { list.new ≡ (if is_ok result then parts_of (pos 1000000000) (unsigned_abs self.now.generation) 0 self.now.qse_loads else list.old) }
    {
        if list.len() != 16 {
            return Err(Refusal::ListLength);
        }
        if self.generation <= 0 {
            return Err(Refusal::NoTotal);
        }
        split::split(WHOLE, 0, self.generation as u32, &self.qse_loads, list)
    }
}
