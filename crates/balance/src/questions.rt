// The questions about a quarter hour, answered from the roll, a load book and the generation figures.
ghost use Rattle.std.specs.Prelude.{◌≡◌, true, map, length, pos, is_ok, if◌then◌else◌};
ghost use Rattle.std.specs.List.{range_with_len};
ghost use Rattle.split.specs.Parts.{sum_of};
ghost use Rattle.balance.specs.Balance.{ufe as ufe_of, adjusted, rtaml as rtaml_of, shares as shares_of};
ghost use Rattle.balance.specs.Gathering.{quarter};
ghost use Rattle.balance.specs.Laws.{Balanced};
ghost use Rattle.balance.specs.Quarter.{sheet_of, refusal_of_quarter, refusal_of_shares};
ghost use Rattle.balance.specs.Questions.{AnsweredAs, ok_unless, late_at, misfit, nowhere};
ghost use Rattle.balance.specs.Totals.{or_else};

use crate::figures::Figures;
use crate::settled::Balance;
use crate::settled::reading::check_pair;
use crate::settled::settling::settle;
use book::{LoadBook, check_quarter_hour};
use refusal::Refusal;
use roll::Roll;

/// A quarter hour of a day, and all that its balance is made from.
#[derive(Drop)]
pub struct QuarterHour<'a, B: LoadBook> {
    pub roll: &'a Roll,
    pub book: &'a B,
    pub figures: &'a Figures,
    pub quarter_hour: u8,
}

/// What was generated in a quarter hour, and what of it is not accounted for, in Wh.
#[derive(Clone, Copy, PartialEq, Eq, Debug)]
pub struct Ufe {
    pub generation: i64,
    pub ufe: i64,
}

impl<B: LoadBook> QuarterHour<'_, B> {
    /// The balance, worked out once. Refused, in this order: a quarter hour past the book's, an empty
    /// roll, the first segment without a load, the first site without a figure, unaccounted-for energy
    /// that no weight carries.
    pub fn balance(&self) -> Result<Balance, Refusal>
        ensures { AnsweredAs result self.now.quarter_hour (quarter B.LoadBook self.now) }
    {
        check_quarter_hour(self.quarter_hour)?;
        if !self.has_segment() {
            return Err(Refusal::EmptyRoll);
        }
        let rows = self.gather()?;
        let generation = self.generation()?;
        settle(&rows, generation)
    }

    // The questions are asked alike, and each has its refusals, its answer and the law in clauses of its
    // own: a caller knows no more than the clauses of the call that it makes.
    /// The adjusted load of each segment into a list of 64, 0 off the roll.
    pub fn adjusted_loads(&self, list: &mut [i64]) -> Result<(), Refusal>
        ensures answer { result ≡ ok_unless (or_else (late_at self.now.quarter_hour) (or_else (misfit 64 (length list.old)) (refusal_of_quarter (quarter B.LoadBook self.now)))) tt }
        ensures after { list.new ≡ (if is_ok result then map (adjusted (sheet_of (quarter B.LoadBook self.now))) (range_with_len 0 64) else list.old) }
        ensures adds_up { is_ok result ≡ true → sum_of list.new ≡ (sheet_of (quarter B.LoadBook self.now)).generation }
        ensures law { is_ok result ≡ true → Balanced (sheet_of (quarter B.LoadBook self.now)) }
    {
        check_quarter_hour(self.quarter_hour)?;
        if list.len() != 64 {
            return Err(Refusal::ListLength);
        }
        self.balance()?.loads(list)
    }

    /// RTAML of a QSE at a settlement point, 0 where it has no segment there.
    pub fn rtaml(&self, qse: u8, point: u8) -> Result<i64, Refusal>
        ensures answer { result ≡ ok_unless (or_else (late_at self.now.quarter_hour) (or_else (nowhere qse point) (refusal_of_quarter (quarter B.LoadBook self.now)))) (rtaml_of (sheet_of (quarter B.LoadBook self.now)) qse point) }
        ensures law { is_ok result ≡ true → Balanced (sheet_of (quarter B.LoadBook self.now)) }
    {
        check_quarter_hour(self.quarter_hour)?;
        check_pair(qse, point)?;
        self.balance()?.rtaml(qse, point)
    }

    /// G with U.
    pub fn generation_and_ufe(&self) -> Result<Ufe, Refusal>
        ensures answer { result ≡ ok_unless (or_else (late_at self.now.quarter_hour) (refusal_of_quarter (quarter B.LoadBook self.now))) (record { generation = (sheet_of (quarter B.LoadBook self.now)).generation; ufe = ufe_of (sheet_of (quarter B.LoadBook self.now)) }) }
        ensures law { is_ok result ≡ true → Balanced (sheet_of (quarter B.LoadBook self.now)) }
    {
        let balance = self.balance()?;
        Ok(Ufe {
            generation: balance.generation(),
            ufe: balance.ufe(),
        })
    }

    /// The load ratio share of each QSE, in billionths, into a list of 16.
    pub fn shares(&self, list: &mut [i64]) -> Result<(), Refusal>
        ensures answer { result ≡ ok_unless (or_else (late_at self.now.quarter_hour) (or_else (misfit 16 (length list.old)) (refusal_of_shares (quarter B.LoadBook self.now)))) tt }
        ensures after { list.new ≡ (if is_ok result then shares_of (sheet_of (quarter B.LoadBook self.now)) else list.old) }
        ensures adds_up { is_ok result ≡ true → sum_of list.new ≡ pos 1000000000 }
        ensures law { is_ok result ≡ true → Balanced (sheet_of (quarter B.LoadBook self.now)) }
    {
        check_quarter_hour(self.quarter_hour)?;
        if list.len() != 16 {
            return Err(Refusal::ListLength);
        }
        self.balance()?.shares(list)
    }
}
