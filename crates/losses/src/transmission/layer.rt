// The transmission adjustment over a load book.
ghost use Rattle.std.specs.Prelude.{◌≡◌, Some};
ghost use Rattle.book.specs.Tables.{at, blank};
ghost use Rattle.losses.specs.Layers.{transmitted, factor_answer, after_giving};

use crate::adjusted::Adjustment;
use crate::transmission::{Transmission, TransmissionTable};
use book::LoadBook;
use refusal::Refusal;

impl<B: LoadBook + Drop> Transmission<B> {
    // What an empty table makes of the book is said in the words of this kind of layer.
    /// The layer over a book, with no factor given.
    pub fn over(below: B) -> Transmission<B>
        ensures below { result.below ≡ below }
        ensures factors { at result.table.factors.rows ≡ blank }
        ensures grossing { transmitted (at result.table.factors.rows) (B.LoadBook.grossing result.below) ≡ transmitted blank (B.LoadBook.grossing below) }
    {
        TransmissionTable::empty().over(below)
    }

    /// Gives the factor of a quarter hour, in millionths. The last one given counts.
    pub fn set_factor(&mut self, quarter_hour: u8, factor: u32) -> Result<(), Refusal>
        ensures answer { result ≡ factor_answer (Some 0) quarter_hour factor }
        ensures below { self.new.below ≡ self.old.below }
        ensures factors { at self.new.table.factors.rows ≡ after_giving result (Some 0) quarter_hour factor (at self.old.table.factors.rows) }
        ensures grossing { transmitted (at self.new.table.factors.rows) (B.LoadBook.grossing self.new.below) ≡ transmitted (after_giving result (Some 0) quarter_hour factor (at self.old.table.factors.rows)) (B.LoadBook.grossing self.old.below) }
    {
        self.table.set_factor(quarter_hour, factor)
    }
}
