// The layers of a pile before there is a book to lay them over.
ghost use Rattle.std.specs.Prelude.{◌≤◌};

use losses::{DistributionTable, TransmissionTable};

pub mod filling;
pub mod stacking;

/// What one layer goes by.
#[derive(Clone, Copy)]
pub enum Layer {
    Distribution(DistributionTable),
    Transmission(TransmissionTable),
}

/// Up to four layers, the lowest first.
// The height stands beside an array: an ArrayVec is not Copy, and this is; and a height read off the
// four places would ask for an invariant that no place below it is empty.
#[derive(Clone, Copy)]
pub struct Layers {
    layers: [Option<Layer>; 4],
    height: usize,
    ghost within: { height ≤ 4 },
}
