// A load book over a lent list of slips, each the reading of one cell.
#![tactic(auto)]

mod list;
mod slip;

pub use list::SlipBook;
pub use slip::Slip;
