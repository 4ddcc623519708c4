// What a grid keeps.
ghost use Rattle.std.specs.Prelude.{◌≡◌, ℕ, ◌^◌, ◌<◌, ◌≤◌, Some};
ghost use Rattle.book.specs.Cells.{count};
ghost use Rattle.grid.specs.Marks.{marks_at};
ghost use Rattle.grid.specs.Held.{standing_in, places_in};

pub mod calls;
mod keeping;
pub mod making;

use crate::marks::Marks;

/// A lent list with a number for each cell, and the marks of each segment: a number counts as a
/// reading where its mark is set. A list of another length has no cells, so no marks.
#[derive(Drop)]
pub struct Grid<'a> {
    cells: &'a mut [u32],
    marks: [Marks; 64],
    ghost day_end: { (s : ℕ) → (marks_at marks s).late < 2 ^ 36 },
    ghost readings: { (s q n : ℕ) → standing_in cells.now marks s q ≡ Some n → n ≤ 1000000 },
    ghost housed: { count (standing_in cells.now marks) ≤ places_in cells.now },
}
