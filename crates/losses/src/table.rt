// The plain inner table of an adjustment: a loss factor, or none, for each row and quarter hour.
ghost use Rattle.std.specs.Prelude.{◌≡◌, ℕ, ◌<◌, [], length, slice_index_or};
ghost use Rattle.book.specs.Tables.{at};
ghost use Rattle.losses.specs.Factors.{Lawful};

pub mod entries;

#[derive(Clone, Copy)]
pub struct FactorTable<const ROWS: usize> {
    rows: [[Option<u32>; 100]; ROWS],
    // proofs do not read off its type how long a row is
    ghost quarter_hours: { (k : ℕ) → k < ROWS → length (slice_index_or rows k []) ≡ 100 },
    ghost lawful: { (k q : ℕ) → Lawful (at rows k q) },
}
