// The generation figures of a day's sites.
ghost use Rattle.std.specs.Prelude.{◌≡◌, ℕ, ◌<◌, ◌≤◌, [], length, pos, slice_index_or, unsigned_abs};
ghost use Rattle.std.specs.Option.{unwrap_or};
ghost use Rattle.book.specs.Tables.{at};

pub mod entering;

/// A figure in Wh, or none, for each of the 16 sites and each quarter hour.
// A table of factors has the same shape. One generic table of both would need a trait for the limit of
// what it holds, and two types of elements to hang it on: it would be no plainer.
#[derive(Clone, Copy)]
pub struct Figures {
    table: [[Option<i32>; 100]; 16],
    // proofs do not read off its type how long a row is
    ghost quarter_hours: { (k : ℕ) → k < 16 → length (slice_index_or table k []) ≡ 100 },
    ghost within: { (k q : ℕ) → unsigned_abs (unwrap_or (at table k q) (pos 0)) ≤ 10000000 },
}
