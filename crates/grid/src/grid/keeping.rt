// How a grid finds, fills and empties a cell, and counts its marks.
ghost use Rattle.std.specs.Prelude.{◌≡◌, ℕ, ◌+◌, ◌*◌, ◌<◌, ◌≤◌, not, length, Some, None, ◌==◌};
ghost use Rattle.book.specs.Answers.{full};
ghost use Rattle.book.specs.Cells.{put, count};
ghost use Rattle.grid.specs.Grids.{standing_of, places_of};

use crate::grid::Grid;
use crate::marks::Marks;

/// 64 segments of 100 quarter hours.
const CELLS: u32 = 6400;

/// Where a cell's number lies in the list.
fn place(segment: u8, quarter_hour: u8) -> usize
    ensures { result ≡ 100 * segment + quarter_hour }
{
    100 * segment as usize + quarter_hour as usize
}

impl Grid<'_> {
    /// Whether the list has a place for each cell. Then an empty cell always finds one, and
    /// otherwise none does.
    pub(super) fn is_whole(&self) -> bool
        ensures length { result ≡ (length self.now.cells.now == 6400) }
        ensures room { (s q : ℕ) → s < 64 → q < 100 → full (standing_of self.now) (places_of self.now) s q ≡ not result }
    {
        self.cells.len() == CELLS as usize
    }

    /// How many readings can stand together.
    pub(super) fn places(&self) -> u32
        ensures { result ≡ places_of self.now }
    {
        if self.is_whole() { CELLS } else { 0 }
    }

    // That a cell is in range is required three times here: two numbers make one, as in the interface.
    /// What stands in a cell.
    pub(super) fn held(&self, segment: u8, quarter_hour: u8) -> Option<u32>
        requires { (segment < 64) × (quarter_hour < 100) }
        ensures { result ≡ standing_of self.now segment quarter_hour }
    {
        if self.marks[segment as usize].has(quarter_hour) {
            Some(self.cells[place(segment, quarter_hour)])
        } else {
            None
        }
    }

    /// Puts a reading into a cell, and marks it.
    pub(super) fn fill(&mut self, segment: u8, quarter_hour: u8, reading: u32)
        requires cell { (segment < 64) × (quarter_hour < 100) }
        requires reading { reading ≤ 1000000 }
        requires whole { length self.old.cells.now ≡ 6400 }
        ensures after { standing_of self.new ≡ put (standing_of self.old) segment quarter_hour (Some reading) }
        ensures places { places_of self.new ≡ places_of self.old }
    {
        self.cells[place(segment, quarter_hour)] = reading;
        let segment = segment as usize;
        self.marks[segment] = self.marks[segment].with(quarter_hour);
    }

    /// Takes a cell's mark away.
    pub(super) fn empty(&mut self, segment: u8, quarter_hour: u8)
        requires { (segment < 64) × (quarter_hour < 100) }
        ensures after { standing_of self.new ≡ put (standing_of self.old) segment quarter_hour None }
        ensures places { places_of self.new ≡ places_of self.old }
    {
        let segment = segment as usize;
        self.marks[segment] = self.marks[segment].without(quarter_hour);
    }

    /// How many marks are set, which is how many readings stand.
    pub(super) fn count_marks(&self) -> u32
        ensures { result ≡ count (standing_of self.now) }
    {
        self.marks.iter().map(|marks| marks.count()).sum()
    }
}
