// A load book under one adjustment, whatever the adjustment goes by.
ghost use Rattle.std.specs.Prelude.{◌≡◌, ℕ};
ghost use Rattle.book.specs.Answers.{load_answer};
ghost use Rattle.book.specs.Grossing.{Gross, Bounded};
ghost use Rattle.losses.specs.Layered.{layered, maybe, maybe_bounded};

use book::LoadBook;
use refusal::Refusal;

/// What an adjustment goes by: a table, from which it makes its own answer of the one below.
// Each says its gross, and not only the loss of a cell: no loss passes a fault on at its own height,
// as having no table does.
pub trait Adjustment {
    /// What the table makes of one cell, by what the book below makes of it.
    ghost adjusted: { Self → ℕ → ℕ → Gross → Gross };

    /// It keeps the bounds of a load book.
    ghost bounded: { (t : Self) (s q : ℕ) (g : Gross) → Bounded g → Bounded (adjusted t s q g) };

    /// The load of a cell, or why it has none, by the answer of a book below.
    fn gross(
        &self,
        below: Result<u32, Refusal>,
        segment: u8,
        quarter_hour: u8,
    ) -> Result<u32, Refusal>
        ensures { (g : Gross) → below ≡ load_answer segment quarter_hour g → result ≡ load_answer segment quarter_hour (adjusted self.now segment quarter_hour g) };

    /// The layer over a book, by this table.
    fn over<B: LoadBook + Drop>(self, below: B) -> Adjusted<B, Self>
    where
        Self: Sized + Drop,
        ensures below { result.below ≡ below }
        ensures table { result.table ≡ self }
        ensures grossing { layered adjusted result.table (B.LoadBook.grossing result.below) ≡ layered adjusted self (B.LoadBook.grossing below) }
    {
        Adjusted { below, table: self }
    }
}

/// A table, or none: with none a load stays as it is, and so does a fault's height.
impl<A: Adjustment> Adjustment for Option<A> {
    ghost adjusted = { maybe A.Adjustment.adjusted };

    ghost bounded = { maybe_bounded A.Adjustment.adjusted A.Adjustment.bounded };

    fn gross(
        &self,
        below: Result<u32, Refusal>,
        segment: u8,
        quarter_hour: u8,
    ) -> Result<u32, Refusal> {
        match self {
            Some(table) => table.gross(below, segment, quarter_hour),
            None => below,
        }
    }
}

/// A load book under one adjustment: the book by value, and the table that the adjustment goes by.
#[derive(Drop)]
pub struct Adjusted<B, A> {
    pub(crate) below: B,
    pub(crate) table: A,
}

/// All calls but load go straight down.
impl<B: LoadBook + Drop, A: Adjustment + Drop> LoadBook for Adjusted<B, A> {
    ghost standing = { λ a. B.LoadBook.standing a.below };

    ghost places = { λ a. B.LoadBook.places a.below };

    ghost grossing = { λ a. layered A.Adjustment.adjusted a.table (B.LoadBook.grossing a.below) };

    ghost readable = { λ a. B.LoadBook.readable a.below };

    ghost housed = { λ a. B.LoadBook.housed a.below };

    ghost bounded = { λ a s q r h. A.Adjustment.bounded a.table s q (B.LoadBook.grossing a.below s q r) (B.LoadBook.bounded a.below s q r h) };

    fn post(
        &mut self,
        segment: u8,
        quarter_hour: u8,
        reading: u32,
    ) -> Result<Option<u32>, Refusal> {
        self.below.post(segment, quarter_hour, reading)
    }

    fn withdraw(&mut self, segment: u8, quarter_hour: u8) -> Result<u32, Refusal> {
        self.below.withdraw(segment, quarter_hour)
    }

    fn clear(&mut self) {
        self.below.clear();
    }

    fn read(&self, segment: u8, quarter_hour: u8) -> Result<Option<u32>, Refusal> {
        self.below.read(segment, quarter_hour)
    }

    fn free(&self) -> u32 {
        self.below.free()
    }

    fn load(&self, segment: u8, quarter_hour: u8) -> Result<u32, Refusal> {
        let below = self.below.load(segment, quarter_hour);
        self.table.gross(below, segment, quarter_hour)
    }
}
