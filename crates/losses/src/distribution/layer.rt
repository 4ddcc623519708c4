// The distribution adjustment over a load book.
ghost use Rattle.std.specs.Prelude.{◌≡◌, map, replicate, None};
ghost use Rattle.roll.specs.Entries.{rows_of};
ghost use Rattle.roll.specs.Marks.{code_of};
ghost use Rattle.book.specs.Tables.{at, blank};
ghost use Rattle.losses.specs.Layers.{distributed, letter_row, roll_code, factor_answer, after_giving};

use crate::adjusted::Adjustment;
use crate::distribution::{Distribution, DistributionTable};
use book::LoadBook;
use refusal::Refusal;
use roll::Roll;

impl<B: LoadBook + Drop> Distribution<B> {
    // What an empty table makes of the book is said in the words of this kind of layer.
    /// The layer over a book, with no factor given and no code taken over.
    pub fn over(below: B) -> Distribution<B>
        ensures below { result.below ≡ below }
        ensures codes { result.table.codes ≡ replicate 64 None }
        ensures factors { at result.table.factors.rows ≡ blank }
        ensures grossing { distributed result.table.codes (at result.table.factors.rows) (B.LoadBook.grossing result.below) ≡ distributed (replicate 64 None) blank (B.LoadBook.grossing below) }
    {
        DistributionTable::empty().over(below)
    }

    /// Gives the factor of a code's letter and a quarter hour, in millionths. The last one given counts.
    pub fn set_factor(&mut self, letter: u8, quarter_hour: u8, factor: u32) -> Result<(), Refusal>
        ensures answer { result ≡ factor_answer (letter_row (code_of letter)) quarter_hour factor }
        ensures below { self.new.below ≡ self.old.below }
        ensures codes { self.new.table.codes ≡ self.old.table.codes }
        ensures factors { at self.new.table.factors.rows ≡ after_giving result (letter_row (code_of letter)) quarter_hour factor (at self.old.table.factors.rows) }
        ensures grossing { distributed self.new.table.codes (at self.new.table.factors.rows) (B.LoadBook.grossing self.new.below) ≡ distributed self.old.table.codes (after_giving result (letter_row (code_of letter)) quarter_hour factor (at self.old.table.factors.rows)) (B.LoadBook.grossing self.old.below) }
    {
        self.table.set_factor(letter, quarter_hour, factor)
    }

    /// Takes over the loss codes of a roll, all at once. A segment that is not on it has none.
    pub fn take_over_codes(&mut self, roll: &Roll)
        ensures codes { self.new.table.codes ≡ map roll_code (rows_of roll.now) }
        ensures below { self.new.below ≡ self.old.below }
        ensures factors { self.new.table.factors ≡ self.old.table.factors }
        ensures grossing { distributed self.new.table.codes (at self.new.table.factors.rows) (B.LoadBook.grossing self.new.below) ≡ distributed (map roll_code (rows_of roll.now)) (at self.old.table.factors.rows) (B.LoadBook.grossing self.old.below) }
    {
        self.table.take_over_codes(roll);
    }
}
