// The table of a day's segments and sites, whose rows are all in range.
ghost use Rattle.std.specs.Prelude.{◌≡◌, ℕ, true, length, None, slice_index_or};
ghost use Rattle.roll.specs.Ranges.{ranged};

use crate::row::Row;

pub mod entries;

/// A place for each of the 64 segment numbers and each of the 16 site numbers. A row that stands
/// here was checked when it was entered, so each one makes a record. A roll is changed whole.
#[derive(Drop)]
pub struct Roll {
    segments: [Option<Row>; 64],
    sites: [bool; 16],
    // a proof about a roll that is lent does not read the lengths off the types
    ghost places: { (length segments ≡ 64) × (length sites ≡ 16) },
    ghost rows_in_range: { (s : ℕ) → ranged (slice_index_or segments s None) ≡ true },
}
