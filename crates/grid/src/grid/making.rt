// A grid is made with nothing standing.
ghost use Rattle.std.specs.Prelude.{◌≡◌, length, if◌then◌else◌, nat_eq};
ghost use Rattle.book.specs.Cells.{nothing};
ghost use Rattle.book.specs.Grossing.{plainly};
ghost use Rattle.grid.specs.Grids.{standing_of, places_of, grossing_of};

use crate::grid::Grid;
use crate::marks::Marks;

impl<'a> Grid<'a> {
    /// Nothing stands, whatever the list held.
    pub fn new(cells: &'a mut [u32]) -> Grid<'a>
        ensures standing { standing_of result ≡ nothing }
        ensures places { places_of result ≡ (if nat_eq (length cells.old) 6400 then 6400 else 0) }
        ensures grossing { grossing_of result ≡ (λ s q reading. plainly reading) }
    {
        let marks = Marks::none();
        Grid { cells, marks }
    }
}
