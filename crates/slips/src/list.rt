// A lent list of slips, and how many of them are in use.
ghost use Rattle.slips.specs.Slips.{Arranged};

use crate::slip::Slip;

pub mod calls;

/// A load book with a place for each slip of a lent list, and at most one for each of the 6,400
/// cells. The first slips are the readings that stand, each cell's at most once, in an order that
/// is the book's own affair; what the others hold means nothing.
// The list is lent and its length counted here, since a book of fixed places has no heap to grow on.
#[derive(Drop)]
pub struct SlipBook<'a> {
    slips: &'a mut [Slip],
    used: usize,
    ghost arranged: { Arranged slips.now used },
}
