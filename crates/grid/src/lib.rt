// The grid: a load book over a lent list with a number for each of the 6,400 cells.
#![tactic(auto)]

mod grid;
mod marks;

pub use grid::Grid;
